// The commonest words of the logic, under one name (specs/Words.antt); no code.
#![tactic(auto)]
