// The library: include/lunozhar.h declares these functions, but not yet those of `answers`, for C and Rust, and crate
// lunozhar_c exports them. A caller holds the station in place and lends the parts of it that a call writes; what is
// lent to one call must not overlap.
#![tactic(auto)]

pub mod answers;
pub mod calls;
pub mod handshakes;
pub mod naming;
pub mod routing;

use protocol::Line;

// The eight lines of a station: an array that a struct holds may be taken by value.
#[repr(C)]
#[derive(Clone, Copy)]
pub struct Lines {
    pub at: [Line; 8],
}

// A message's number.
#[repr(C)]
#[derive(Clone, Copy)]
pub struct Number {
    pub bytes: [u8; 16],
}
