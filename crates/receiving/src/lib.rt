// Bytes as a line brings them. There is no code here: specs/Feeding.antt says what a call does that brings some, the
// other files of specs/ what holds of lists of such calls, and proofs/ shows it. The code is in crates intake and station.
#![tactic(auto)]
