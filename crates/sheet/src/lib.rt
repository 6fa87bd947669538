// Definitions and laws of the inventory sheet of a column file; no code.
