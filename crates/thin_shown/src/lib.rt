// Laws about a kept column in the new file, read back by links; no code.
