// Floor 6: hits that a station has written, through the calls of the stations that they come to. Theorems over
// definitions; it has no code of its own.
#![tactic(auto)]
