// Document 01's example file converted again (document 02, request 14); no code.
