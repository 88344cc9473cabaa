// Starts of ADUs and what is handed out of a window: definitions, and what follows from them. No code.
#![tactic(auto)]
