// The tally over lists of calls. There is no code here: specs/Calls.antt and specs/Events.antt say which calls are
// counted, proofs/ what the tally then is.
#![tactic(auto)]
