// The static library for C and Rust: include/lunozhar.h declares these functions, but not yet those of `answers`. Each is
// crate lunozhar's function of the same name, with its clauses. A caller holds the station in place and lends the parts of it that a call writes; what is
// lent to one call must not overlap.
#![tactic(auto)]

pub mod answers;
pub mod calls;
pub mod handshakes;
pub mod naming;
pub mod routing;
