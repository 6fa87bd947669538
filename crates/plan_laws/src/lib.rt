// Laws of the walk's items, of planning, and of what was decided; no code.
