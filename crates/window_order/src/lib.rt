// Laws about blocks in order over a window of the file; no code.
