// Definitions and laws of passes over several conversions in steps; no code.
