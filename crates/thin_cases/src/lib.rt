// Columns taken out of small files, as closed examples; no code.
