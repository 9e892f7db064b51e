// Floor 2: whether an area of names is good, and a name's place in it (RULES 22.4, 22.6). One pass goes over the pairs,
// and where offsets rise, which shows that no two names have a byte in common, one over the text tells of zero bytes.
// Chains of places, one for each bucket, keep names apart of which no two can be the same, and find a name.
#![tactic(auto)]

mod chains;
mod order;
pub mod search;
