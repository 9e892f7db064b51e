// An arriving message: its first refusal, and what it does.
ghost use Rattle.std.specs.Prelude.{◌≡◌, cond, ◌+◌, length};
ghost use Rattle.protocol.specs.Outcomes.{terms_of, unused};
ghost use Rattle.station.specs.Feeding.{used_by};
ghost use Rattle.station.specs.Calls.{Handed, arrival_step};

use crate::act::act;
use crate::actions::{Action, quietly};
use crate::lines::read_lines;
use memory::Survey;
use protocol::{Known, Line, Own, Report};
use wire::{HEADER_SIZE, read_header};

// How many bytes of a message are used: none where nothing is consumed, else its header and payload.
fn used_of(answer: u8, size: u32) -> usize
    ensures { result ≡ cond (unused answer) 0 (23 + size) }
{
    if matches!(answer, 1..=5) {
        0
    } else {
        HEADER_SIZE + size as usize
    }
}

// What a message did, with the bytes that are used of it.
fn with_used(a: Action, size: u32) -> Action
    ensures { result ≡ used_by a (cond (unused a.report.answer) 0 (23 + size)) }
{
    Action {
        report: Report {
            used: used_of(a.report.answer, size),
            ..a.report
        },
        ..a
    }
}

// An arriving message, given whether the ring is in order and what it knows of the number. The record that comes back
// belongs at line % 8, and the ring takes the number in where it is to be remembered, or counts the hit.
pub fn arrive<K: Known>(
    s: Survey<K>,
    room: usize,
    lines: [Line; 8],
    line: u32,
    clock: u32,
    own: Own,
    m: &[u8],
    out: &mut [u8],
    route: &mut [u8],
) -> Action
    ensures { let terms = terms_of clock own (length out.old) in
        let step = arrival_step s.order (K.lookup s.known) room lines line m.now terms route.old in
        Handed step m.now result out.old out.new route.new }
{
    let h = read_header(m);
    let l = line % 8;
    let v = read_lines(lines, room, l);
    let early = refusals::early(
        s.order & v.order,
        room,
        out.len(),
        route.len(),
        line,
        v.line.live,
        m.len(),
        h.size,
    );
    match early {
        Ok(()) => {
            let a = act(s.known, room, lines, v, l, h, clock, own, m, out, route);
            with_used(a, h.size)
        }
        Err(refusal) => with_used(quietly(u8::from(refusal), v.line), h.size),
    }
}
