// Floor 4: what the writer of table updates writes, taken by the station's message call. Theorems over definitions; it
// has no code of its own.
#![tactic(auto)]
