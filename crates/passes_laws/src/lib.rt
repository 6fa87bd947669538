// Laws of passes that speak of the converter: whatever passes there are, a finished job has the file made in one go; no code.
