// Laws of a conversion in steps that speak of the converter: a cut file is refused with 5, a finished one is the file made in one go; no code.
