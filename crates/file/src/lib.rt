// Definitions of reading ranges of a column file's records; no code.
