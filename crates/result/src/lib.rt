// Definitions of the result, and the guarantee proved of it; no code.
