// Handshake groups: where a group ends, its lines, and what its first line says.
#![tactic(auto)]

pub mod lines;
pub mod start;
