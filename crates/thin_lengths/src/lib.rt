// Laws: a file with columns taken out is no longer than before; no code.
