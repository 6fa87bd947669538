// Laws of records, counts, cells and payloads; no code.
