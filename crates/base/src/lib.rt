// Definitions that every part uses, and their laws; no code.
