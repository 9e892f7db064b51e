// Keywords of a text, and the place of a keyword in a route table. Nothing here knows of lines or neighbours.
#![tactic(auto)]

pub mod cut;
pub mod hash;
pub mod words;
