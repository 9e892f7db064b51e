// Floor 4: the rings of stored pongs: what a walk over them reads, rank by rank, and whether a line is in order.
#![tactic(auto)]

pub mod order;
pub mod walk;
