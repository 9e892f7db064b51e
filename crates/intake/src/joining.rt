// Held bytes and bytes that are brought now, read as one.
ghost use Rattle.std.specs.Prelude.{◌<◌, min, ◌≡◌, ◌++◌, length, take, replicate};
ghost use Rattle.wire.specs.Header.{header_in};
ghost use Rattle.intake.specs.Joining.{held_with};

use wire::{HEADER_SIZE, Header, copy_onto, read_header};

// The first 23 of `count` held bytes and those brought, and zeros for the ones that are not there; fewer than 23 are
// held.
fn first_bytes(held: &[u8], count: usize, bytes: &[u8]) -> [u8; 23]
    requires { min count (length held.now) < 23 }
    ensures { result ≡ take 23 ((take count held.now ++ bytes.now) ++ replicate 23 0) }
{
    let mut first = [0u8; 23];
    let n = count.min(held.len());
    copy_onto(&held[..n], &mut first);
    copy_onto(bytes, &mut first[n..]);
    first
}

// The header that `count` held bytes and those brought begin with.
pub fn joined_header(held: &[u8], count: usize, bytes: &[u8]) -> Header
    ensures { result ≡ header_in (take count held.now ++ bytes.now) }
{
    if count == 0 {
        return read_header(bytes);
    }
    if HEADER_SIZE <= count.min(held.len()) {
        return read_header(held);
    }
    read_header(&first_bytes(held, count, bytes))
}

// The bytes stand in the held area from `at` on, if they have room there.
pub fn hold(held: &mut [u8], at: usize, bytes: &[u8])
    ensures { held.new ≡ held_with at bytes.now held.old }
{
    if at <= held.len() && bytes.len() <= held.len() - at {
        copy_onto(bytes, &mut held[at..]);
    }
}
