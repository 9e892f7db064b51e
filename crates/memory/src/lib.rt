// Floor 4: leaves over the ring of remembered queries. They take slices of any length, whose capacity is the length
// of `lo`; what crate lunozhar calls for a station's ring of 512 (`survey`, `remember`, `raise`, `fresh`) takes arrays,
// and `leave` the askers as a slice.
// The kept places of a ring are those just below `next`, as many as there are or are kept, and the rest at the end of
// its slices: `count.min(next)` are below.
#![tactic(auto)]

mod askers;
mod hits;
pub mod leave;
mod numbers;
pub mod order;
pub mod remember;
pub mod search;

use protocol::Remembered;

// Whether the remembered queries are in order, and what is known of a number, in either form of `protocol::Known`.
#[derive(Clone, Copy)]
pub struct Survey<K = Option<Remembered>> {
    pub order: bool,
    pub known: K,
}
