// Floor 4: bytes as a line brings them, in parts: held bytes and the bytes brought read as one without joining them,
// and the refusals before they count. The rules are the definitions of crate receiving.
#![tactic(auto)]

pub mod early;
pub mod joining;
