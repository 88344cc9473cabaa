// The receiver as a plain history, the model that computes it, and that they agree; no code.
#![tactic(auto)]
