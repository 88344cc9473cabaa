// No code: the bench sheet as one table, computed from the definitions that the promises use.
#![tactic(auto)]
