// No code: what is claimed of an encoder of a block over every list of its calls, from the promises of the calls.
#![tactic(auto)]
