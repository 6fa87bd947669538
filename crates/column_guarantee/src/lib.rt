// The theorem: in every accepted result each column's data blocks, and its SD, stand whole from the address of the first on; no code.
