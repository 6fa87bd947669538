// The theorem: the inventory sheet of every accepted result shows the planned columns as the recording has them; no code.
