// Text as bytes. No code: the definitions stand in specs/.
#![tactic(auto)]
