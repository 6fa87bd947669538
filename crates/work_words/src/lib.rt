// What stands where in the lent work words: definitions only.
