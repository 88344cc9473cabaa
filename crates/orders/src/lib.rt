// No code: what two receivers show that have accepted the same packets in different orders, from the promises of the calls.
#![tactic(auto)]
