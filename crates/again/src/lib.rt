// Document 02's request 14, converting a result again: the statement; no code.
