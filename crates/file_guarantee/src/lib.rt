// The theorem: from every accepted result the reader reads the records that the archive was promised; no code.
