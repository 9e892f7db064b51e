// Floor 2: query hits (RULES 25): the payload of a hit read, one result after another, and its parts written. Nothing
// here knows of messages, lines or names that are listed.
#![tactic(auto)]

pub mod reading;
pub mod writing;
