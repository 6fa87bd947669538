// Laws of converting a result again (document 02, request 14); no code.
