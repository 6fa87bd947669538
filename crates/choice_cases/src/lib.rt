// What a call chooses (document 02, requests 6 to 9) as closed examples; no code.
