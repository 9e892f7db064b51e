// The pongs that answer a ping: this station's own, and up to ten stored ones of the other lines.
ghost use Rattle.std.specs.Prelude.{◌≡◌, ◌*◌, ◌≤◌, ◌||◌, length};
ghost use Rattle.laws.specs.Parts.{over};
ghost use Rattle.protocol.specs.Pings.{pong_bytes, stored_sent, own_sent};
ghost use Rattle.pongrings.specs.Ring.{if_fresh};
ghost use Rattle.pinging.specs.Sending.{PongsPut, StoredPut, own_count, pongs_written, count_written};

use crate::clock::elapsed_ms;
use crate::messages::{one_hop_more, own_payload, pong_ttl};
use pongrings::walk::{counts_in, most_of, nexts_in, place_for, rings_in};
use protocol::{Line, Own, Pong};
use wire::{HEADER_SIZE, Kind, copy_onto, put_header};

// A pong with these Hops and bytes as a message at the front of the part.
fn put_pong(number: [u8; 16], pinghops: u8, hops: u8, bytes: [u8; 14], part: &mut [u8])
    requires { 37 ≤ length part.old }
    ensures { PongsPut 1 (pong_bytes number pinghops hops bytes) part.old part.new 37 }
{
    put_header(
        number,
        Kind::Pong.into(),
        pong_ttl(pinghops),
        hops,
        14,
        &mut *part,
    );
    copy_onto(&bytes, &mut part[HEADER_SIZE..]);
}

// The own pong goes to a probe always, else where the station takes calls.
fn sends_own(probe: bool, calls: bool) -> bool
    ensures { result ≡ (probe || calls) }
{
    probe || calls
}

// The own pong at the front of the part, if it is sent; how many bytes.
fn put_own(own: Own, number: [u8; 16], pinghops: u8, probe: bool, part: &mut [u8]) -> usize
    requires { 37 ≤ length part.old }
    ensures pongs_put { PongsPut (own_count own probe) (own_sent own number pinghops probe) part.old part.new result }
    ensures few { result ≤ 37 }
{
    if !sends_own(probe, own.calls) {
        return 0;
    }
    let address = own.address;
    let payload = own_payload(own.port, address, own.files, own.kilobytes);
    put_pong(number, pinghops, 0, payload, part);
    37
}

// The pong at the front of the part, if it is less than 15,000 ms old; how many bytes.
fn put_fresh(pong: Pong, clock: u32, number: [u8; 16], pinghops: u8, part: &mut [u8]) -> usize
    requires { 37 ≤ length part.old }
    ensures stored_put { StoredPut number pinghops (if_fresh clock pong) part.old part.new result }
    ensures few { result ≤ 37 }
{
    if 15000 <= elapsed_ms(clock, pong.clock) {
        return 0;
    }
    let bytes = pong.bytes;
    put_pong(number, pinghops, one_hop_more(pong.hops), bytes, part);
    37
}

// The stored pongs at the front of the part: rank by rank, and within a rank line by line, until ten have been put; how
// many bytes.
fn put_stored(
    lines: [Line; 8],
    line: u32,
    clock: u32,
    number: [u8; 16],
    pinghops: u8,
    part: &mut [u8],
) -> usize
    requires { 370 ≤ length part.old }
    ensures stored_put { StoredPut number pinghops (stored_sent lines line clock) part.old part.new result }
    ensures few { result ≤ 370 }
{
    let counts = counts_in(lines);
    let nexts = nexts_in(lines);
    let rings = rings_in(lines);
    let turns = 8 * most_of(counts);
    let mut sent = 0;
    for i in 0..turns {
        if 370 <= sent {
            return sent;
        }
        let k = i % 8;
        let Some(place) = place_for(line, k as u32, counts[k], nexts[k], i / 8) else {
            continue;
        };
        let pong = rings[k][place];
        let put = put_fresh(pong, clock, number, pinghops, &mut part[sent..]);
        sent += put;
    }
    sent
}

// The pongs that answer a ping of this number and Hops from `line`, one message after another at the front of `out`;
// how many bytes. A probe gets the own pong alone. An output area of less than 407 bytes, eleven pongs, gets nothing.
pub fn send_pongs(
    lines: [Line; 8],
    line: u32,
    clock: u32,
    own: Own,
    number: [u8; 16],
    hops: u8,
    probe: bool,
    out: &mut [u8],
) -> usize
    ensures size { result ≡ length (pongs_written (length out.old) lines line clock own number hops probe) }
    ensures count { result ≡ 37 * count_written (length out.old) lines line clock own probe }
    ensures bytes { out.new ≡ over 0 (pongs_written (length out.old) lines line clock own number hops probe) out.old }
{
    if out.len() < 407 {
        return 0;
    }
    let first = put_own(own, number, hops, probe, &mut *out);
    if probe {
        return first;
    }
    let rest = put_stored(lines, line, clock, number, hops, &mut out[first..]);
    first + rest
}
