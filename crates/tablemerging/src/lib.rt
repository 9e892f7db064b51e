// Floor 3: the table to send a neighbour, from the station's own names and other tables of any lengths, as definitions
// in specs/ with laws and theorems in proofs/; the code that meets them is crate tablemerger. Nothing here knows of
// lines or neighbours.
#![tactic(auto)]
