// Definitions of what is read from a recording; no code.
