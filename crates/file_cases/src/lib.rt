// Closed examples of reading ranges of a column file; no code.
