// Definitions and laws of a conversion in steps: its stores, named positions, windows of a file; no code.
