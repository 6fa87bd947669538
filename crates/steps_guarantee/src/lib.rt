// The theorem: whatever calls of a conversion in steps are made, state, file and list are those of the definition; no code.
