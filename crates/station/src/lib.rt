// Floor 5: what the station's calls do, but for the ring of remembered queries: of that they are told whether it is in
// order and what it knows of the call's number. The rules are the definitions of crate protocol; the work is done by
// the crates below, each on the slices and numbers it needs. Room and lines go by value.
#![tactic(auto)]

mod act;
pub mod actions;
pub mod asking;
pub mod changes;
pub mod feeding;
mod hits;
pub mod lines;
pub mod messages;
pub mod order;
mod pings;
mod queries;
mod updates;
