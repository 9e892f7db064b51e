// Messages written to the front of the output area.
ghost use Rattle.std.specs.Prelude.{◌≡◌, cond, ◌+◌, length};
ghost use Rattle.forwarding.specs.Messages.{passable, passed_into, sendable, own_into, count_if};

use protocol::LARGEST_TEXT;
use wire::{HEADER_SIZE, Kind, copy_onto, put_header};

// The first n bytes of a message as it is sent on: only TTL and Hops are new. Answers how many bytes it wrote: none
// where n is less than a header, more than the message has, or more than there is room for.
pub fn pass_on(m: &[u8], n: usize, ttl: u8, hops: u8, out: &mut [u8]) -> usize
    ensures count { result ≡ count_if (passable m.now n out.old) n }
    ensures bytes { out.new ≡ passed_into m.now n ttl hops out.old }
{
    if n < HEADER_SIZE || m.len() < n || out.len() < n {
        return 0;
    }
    copy_onto(&m[..n], &mut *out);
    out[17] = ttl;
    out[18] = hops;
    n
}

// The same where the message goes to some line, and nothing where it goes to none.
pub fn pass_if(some: bool, m: &[u8], n: usize, ttl: u8, hops: u8, out: &mut [u8]) -> usize
    ensures count { result ≡ cond some (count_if (passable m.now n out.old) n) 0 }
    ensures bytes { out.new ≡ cond some (passed_into m.now n ttl hops out.old) out.old }
{
    if !some {
        return 0;
    }
    pass_on(m, n, ttl, hops, out)
}

// A query of this station's own. Answers how many bytes it wrote: none where the text is longer than a payload takes,
// or there is no room.
pub fn own_query(number: [u8; 16], limit: u8, text: &[u8], out: &mut [u8]) -> usize
    ensures count { result ≡ count_if (sendable text.now out.old) (26 + length text.now) }
    ensures bytes { out.new ≡ own_into number limit text.now out.old }
{
    let n = text.len();
    if LARGEST_TEXT < n || out.len() < 26 + n {
        return 0;
    }
    put_header(
        number,
        Kind::Query.into(),
        limit,
        0,
        (n + 3) as u32,
        &mut *out,
    );
    out[23] = 0;
    out[24] = 0;
    copy_onto(text, &mut out[25..]);
    out[25 + n] = 0;
    26 + n
}
