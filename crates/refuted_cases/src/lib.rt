// Files, plans and lists that the guarantee excludes, as closed examples; no code.
