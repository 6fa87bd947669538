// Closed examples of inventory sheets of whole files; no code.
