// The eleven worked cases (RULES 18). There is no code here: specs/Cases.antt has the list, proofs/Cases.antt the one
// theorem over it.
#![tactic(auto)]
