// The text of a session, from the bytes of its event file.
#![tactic(auto)]

mod events;
mod file;
mod put;
mod rows;
pub mod text;
