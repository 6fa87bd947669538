// The guarantee, proved of every accepted result; no code.
