// Laws about the final bytes and about reading them back by links; no code.
