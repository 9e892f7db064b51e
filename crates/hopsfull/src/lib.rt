// 12, Hops that are 255 and would have to rise. There is no code here: specs/PutBack.antt puts the row for it back
// behind the checks of a query and says that every call is as it is without; specs/NoQuery.antt says that no query is
// answered 12, specs/Hits.antt exactly which hits are; specs/Sessions.antt has evaluated lists, and proofs/ shows it
// all. The rules are in crate protocol, the code in crate refusals.
#![tactic(auto)]
