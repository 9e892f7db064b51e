// How old a remembered query is. There is no code here: specs/LookUp.antt says what looking a number up tells, and
// specs/HandedUp.antt which calls hand an age up; specs/History.antt says both over lists of calls, and proofs/ shows
// it. The rules are in crate protocol, the code in crates refusals, station and lunozhar.
#![tactic(auto)]
