// The theorem: what holds of every file that taking columns out makes; no code.
