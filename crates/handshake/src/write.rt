// The three groups that the station writes.
ghost use Rattle.std.specs.Prelude.{◌≡◌, ◌≤◌, length};
ghost use Rattle.laws.specs.Parts.{over};
ghost use Rattle.xtry.specs.Writing.{pairs_in};
ghost use Rattle.handshake.specs.Groups.{greeting_bytes, ok_bytes, busy_bytes, named_bytes, text_answer, busy_answer};
ghost use Rattle.handshake.specs.Groups.{wrote_by, wrote_of, area_of};

use crate::Wrote;
use answer::Refusal;
use xtry::Pairs;
use xtry::write::{can_write, write_pairs};

impl From<Result<usize, Refusal>> for Wrote {
    ghost from_gives = { λ written wrote. wrote ≡ wrote_by written };

    fn from(written: Result<usize, Refusal>) -> Wrote {
        match written {
            Ok(written) => Wrote { answer: 0, written },
            Err(refusal) => Wrote {
                answer: u8::from(refusal),
                written: 0,
            },
        }
    }
}

// A text that is written whole, or not at all. What is handed back, here and below, is how many bytes were written.
fn put_whole(text: &[u8], out: &mut [u8]) -> Result<usize, Refusal>
    ensures value { wrote_by result ≡ wrote_of (text_answer (length out.old) text.now) text.now }
    ensures out_after { out.new ≡ area_of (text_answer (length out.old) text.now) text.now out.old }
{
    let written = text.len();
    if out.len() < written {
        return Err(Refusal::BadArea);
    }
    out[..written].copy_from_slice(text);
    Ok(written)
}

// The station's greeting.
pub fn write_greeting(out: &mut [u8]) -> Result<usize, Refusal>
    ensures value { wrote_by result ≡ wrote_of (text_answer (length out.old) greeting_bytes) greeting_bytes }
    ensures out_after { out.new ≡ area_of (text_answer (length out.old) greeting_bytes) greeting_bytes out.old }
{
    put_whole(b"GNUTELLA CONNECT/0.6\r\n\r\n", out)
}

// The reply that takes a connection.
pub fn write_ok(out: &mut [u8]) -> Result<usize, Refusal>
    ensures value { wrote_by result ≡ wrote_of (text_answer (length out.old) ok_bytes) ok_bytes }
    ensures out_after { out.new ≡ area_of (text_answer (length out.old) ok_bytes) ok_bytes out.old }
{
    put_whole(b"GNUTELLA/0.6 200 OK\r\n\r\n", out)
}

// The reply that names these pairs, of which there are some, at the front of an area that has room for the longest one.
fn put_busy(pairs: Pairs, out: &mut [u8]) -> usize
    requires { 1024 ≤ length out.old }
    ensures value { (result ≡ length (named_bytes (pairs_in pairs))) × (result ≤ 1024) }
    ensures out_after { out.new ≡ over 0 (named_bytes (pairs_in pairs)) out.old }
{
    out[..29].copy_from_slice(b"GNUTELLA/0.6 503 Busy\r\nX-Try:");
    let n = write_pairs(pairs, b' ', &mut out[29..]);
    let end = 29 + n;
    out[end..end + 4].copy_from_slice(b"\r\n\r\n");
    end + 4
}

// The reply that refuses a connection, with hosts to try instead.
pub fn write_busy(pairs: Pairs, out: &mut [u8]) -> Result<usize, Refusal>
    ensures value { wrote_by result ≡ wrote_of (busy_answer (length out.old) pairs) (busy_bytes (pairs_in pairs)) }
    ensures out_after { out.new ≡ area_of (busy_answer (length out.old) pairs) (busy_bytes (pairs_in pairs)) out.old }
{
    if !can_write(pairs) {
        return Err(Refusal::BadPayload);
    }
    if pairs.count == 0 {
        return put_whole(b"GNUTELLA/0.6 503 Busy\r\n\r\n", out);
    }
    let mut text = [0u8; 1024];
    let n = put_busy(pairs, &mut text);
    put_whole(&text[..n], out)
}
