// Taking columns out of a column file and closing it up: definitions (specs/).
