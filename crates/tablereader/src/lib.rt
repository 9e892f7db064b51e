// Floor 2: updates read on one neighbour's part of the route area, and whether its table withholds a query, by the
// rules of crate tables.
// Nothing here knows of lines or neighbours.
#![tactic(auto)]

pub mod admission;
pub mod bounds;
mod fields;
pub mod held;
mod numbers;
pub mod order;
mod patch;
mod reset;
mod turns;
pub mod updates;
