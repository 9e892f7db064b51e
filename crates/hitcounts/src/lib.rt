// How many hits of one query are passed back or delivered: at most 200. There is no code here: specs/History.antt says
// over lists of calls what each count is, specs/Few.antt that it is at most 200 and what becomes of the next hit,
// specs/Events.antt the same over lists that also bring bytes as a line does, specs/TwentyOne.antt exactly which
// messages are answered 21, and specs/Stay.antt which calls leave the counts; proofs/ shows it. The rules are in crate
// protocol.
#![tactic(auto)]
