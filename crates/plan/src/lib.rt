// Definitions of what is planned: columns, omissions, copies, places; no code.
