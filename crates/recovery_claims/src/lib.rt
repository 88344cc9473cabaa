// No code: what is claimed of a block that is recovered, over every list of packet calls, from the promises of the calls.
#![tactic(auto)]
