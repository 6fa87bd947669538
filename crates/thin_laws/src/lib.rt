// Laws of taking columns out of a column file: the layout and the blocks of the new file; no code.
