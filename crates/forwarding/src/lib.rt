// Floor 4: what of a query is read before it is forwarded, which lines it goes to, and the messages as they are sent.
#![tactic(auto)]

pub mod lines;
pub mod messages;
pub mod texts;
