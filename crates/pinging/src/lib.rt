// Floor 4: pings answered and pongs stored and sent, by plain values: one line, or the eight, with numbers and lent
// bytes. Crate station holds the state.
#![tactic(auto)]

pub mod answers;
pub mod clock;
mod messages;
pub mod number;
pub mod send;
pub mod store;
