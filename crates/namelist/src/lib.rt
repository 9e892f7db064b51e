// Floor 2: names added to an area and removed from it, in place (RULES 22.7, 22.8). A removed name leaves a gap; gaps
// are closed where a new text finds no room behind the last.
#![tactic(auto)]

pub mod changes;
mod gaps;
mod listing;
mod moves;
