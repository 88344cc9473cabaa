// No code: the packets of one block as a plain history, and the system of equations that stands for them.
#![tactic(auto)]
