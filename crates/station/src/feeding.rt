// A call that brings bytes: the first refusal, or what the bytes are of a message and what it does.
ghost use Rattle.std.specs.Prelude.{◌+◌, ◌%◌, ◌≤◌, ◌<◌, ◌≡◌, true, eqb, length};
ghost use Rattle.laws.specs.Tests.{first_of};
ghost use Rattle.wire.specs.Header.{header_in, largest_message};
ghost use Rattle.protocol.specs.Outcomes.{terms_of};
ghost use Rattle.protocol.specs.Lines.{line_in};
ghost use Rattle.protocol.specs.Calls.{extent_rules};
ghost use Rattle.receiving.specs.Feeding.{holding, joined, shut_line};
ghost use Rattle.station.specs.Actions.{view_of};
ghost use Rattle.station.specs.Feeding.{FeedHanded, fed_step, quiet_feeding, whole_feeding};
ghost use Rattle.station.specs.Feeding.{unfinished_feeding, held_if, Ends, taken_step};

use crate::act::act;
use crate::actions::{Action, quiet, quietly};
use crate::lines::{View, read_lines};
use answer::Refusal;
use intake::early::before_bytes;
use intake::joining::{hold, joined_header};
use memory::Survey;
use protocol::{Known, Line, Own, Pending, Report};
use refusals::extent;
use wire::{HEADER_SIZE, Header};

// What stands where the answer would be while a message is not whole.
pub const WAITING: u8 = 255;

// What the message does that was taken, whether it stands in the held area, and whether the call only waits.
#[derive(Clone, Copy)]
pub struct Feeding {
    pub action: Action,
    pub within: bool,
    pub waits: bool,
}

// The header that the held bytes of a line, counted modulo eight, and those brought begin with.
pub fn header_of(lines: [Line; 8], line: u32, held: &[u8], bytes: &[u8]) -> Header
    ensures { let all = joined (line_in lines (line % 8)) held.now bytes.now in
        result ≡ header_in all }
{
    let x = lines[(line % 8) as usize];
    joined_header(held, x.pending.count as usize, bytes)
}

// The line's record with so many bytes held; the shut mark stays.
fn with_count(x: Line, count: u16) -> Line
    ensures { result ≡ holding count x }
{
    Line {
        pending: Pending { count, ..x.pending },
        ..x
    }
}

fn shut_line(x: Line) -> Line
    ensures { result ≡ shut_line x }
{
    Line {
        pending: Pending {
            count: 0,
            shut: true,
        },
        ..x
    }
}

// Answered, so many bytes used, and nothing is sent, searched or delivered.
fn quiet_feeding(answer: u8, used: usize, line: Line, waits: bool) -> Feeding
    ensures { result ≡ quiet_feeding answer used line waits }
{
    Feeding {
        action: Action {
            report: Report {
                used,
                ..quiet(answer)
            },
            ..quietly(answer, line)
        },
        within: false,
        waits,
    }
}

// What a whole message did, so many bytes used, and nothing is held of its line.
fn whole_feeding(a: Action, used: usize, within: bool) -> Feeding
    ensures { result ≡ whole_feeding a used within }
{
    Feeding {
        action: Action {
            report: Report { used, ..a.report },
            line: with_count(a.line, 0),
            ..a
        },
        within,
        waits: false,
    }
}

// Bytes that end before their message does: they are held.
fn waiting(x: Line, bytes: &[u8], held: &mut [u8]) -> Feeding
    requires { x.pending.count + length bytes.now < largest_message }
    ensures feeding { result ≡ unfinished_feeding true (length bytes.now) x }
    ensures area { held.new ≡ held_if true x.pending.count bytes.now held.old }
{
    let count = x.pending.count as usize;
    hold(held, count, bytes);
    let line = with_count(x, (count + bytes.len()) as u16);
    quiet_feeding(WAITING, bytes.len(), line, true)
}

// A whole message, of which `count` bytes are held: it stands where the bytes were brought, or else it is made whole in
// the held area.
fn taken<K: Known>(
    count: usize,
    known: K,
    room: usize,
    lines: [Line; 8],
    v: View,
    l: u32,
    h: Header,
    clock: u32,
    own: Own,
    bytes: &[u8],
    held: &mut [u8],
    out: &mut [u8],
    route: &mut [u8],
) -> Feeding
    requires l_bound { (l < 8) × (v ≡ view_of lines room l) }
    requires ends { Ends room h count bytes.now held.old (length out.old) (length route.old) }
    ensures { let terms = terms_of clock own (length out.old) in
        let step = taken_step h count (K.lookup known) room lines l bytes.now held.old terms route.old in
        FeedHanded step result out.old out.new held.new route.new }
{
    let n = HEADER_SIZE + h.size as usize;
    if count == 0 {
        let a = act(
            known,
            room,
            lines,
            v,
            l,
            h,
            clock,
            own,
            &bytes[..n],
            out,
            route,
        );
        return whole_feeding(a, n, false);
    }
    hold(held, count, &bytes[..n - count]);
    let a = act(
        known,
        room,
        lines,
        v,
        l,
        h,
        clock,
        own,
        &held[..n],
        out,
        route,
    );
    whole_feeding(a, n - count, true)
}

// Do so many bytes start a message, whose header says `size` for its payload, and not end it?
fn starts(len: usize, size: u32) -> bool
    ensures { result ≡ eqb (first_of (extent_rules len size)) 4 }
{
    extent(len, size) == Err(Refusal::NotWhole)
}

// Bytes by a line, given whether the ring is in order and what it knows of the number that they bring. The record that
// comes back belongs at line % 8, and the ring takes the number in where it is to be remembered, or counts the
// hit.
pub fn feed<K: Known>(
    s: Survey<K>,
    room: usize,
    lines: [Line; 8],
    line: u32,
    clock: u32,
    own: Own,
    bytes: &[u8],
    held: &mut [u8],
    out: &mut [u8],
    route: &mut [u8],
) -> Feeding
    ensures { let terms = terms_of clock own (length out.old) in
        let step = fed_step s.order (K.lookup s.known) room lines line bytes.now held.old terms route.old in
        FeedHanded step result out.old out.new held.new route.new }
{
    let l = line % 8;
    let v = read_lines(lines, room, l);
    let x = v.line;
    let count = x.pending.count as usize;
    let h = joined_header(held, count, bytes);
    let early = before_bytes(
        s.order & v.order,
        room,
        out.len(),
        route.len(),
        held.len(),
        line,
        x,
        starts(count.min(held.len()), h.size),
    );
    if let Err(refusal) = early {
        return quiet_feeding(u8::from(refusal), 0, x, false);
    }
    let all = count + bytes.len();
    if starts(all, h.size) {
        return waiting(x, bytes, held);
    }
    match extent(all, h.size) {
        Ok(()) => taken(
            count, s.known, room, lines, v, l, h, clock, own, bytes, held, out, route,
        ),
        Err(refusal) => quiet_feeding(u8::from(refusal), HEADER_SIZE - count, shut_line(x), false),
    }
}
