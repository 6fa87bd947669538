// Closed examples of the definitions; no code.
