// An arriving ping, answered with pongs, and an arriving pong, stored on its line.
ghost use Rattle.std.specs.Prelude.{◌≡◌, List, ℕ, ◌≤◌, ◌<◌, length};
ghost use Rattle.wire.specs.Header.{header_in};
ghost use Rattle.protocol.specs.Lines.{line_in};
ghost use Rattle.protocol.specs.Outcomes.{terms_of};
ghost use Rattle.protocol.specs.Pings.{time_kept, back_to, ping_step, pong_step};
ghost use Rattle.station.specs.Actions.{Whole, action_of, Does};

use crate::actions::{Action, only_to, quiet, quietly};
use pinging::answers::{is_probe, ping_answer, pong_answer};
use pinging::number::number_of;
use pinging::send::send_pongs;
use pinging::store::{first_bytes, store_pong};
use protocol::{Line, Own, Report};
use wire::{HEADER_SIZE, Header};

// The line after an accepted ping: a probe's time is not kept.
fn time_kept(x: Line, probe: bool, clock: u32) -> Line
    ensures { result ≡ time_kept x probe clock }
{
    if probe {
        x
    } else {
        Line {
            pinged: true,
            pingtime: clock,
            ..x
        }
    }
}

// Pongs go back to the ping's line, if any are written.
fn back_to(written: usize, l: u32) -> [bool; 8]
    requires { l < 8 }
    ensures { result ≡ back_to written l }
{
    if written == 0 {
        [false; 8]
    } else {
        only_to(l as u8)
    }
}

// A ping by line l, which has the record x, with the eight lines whose stored pongs may answer it.
pub(crate) fn ping_step(
    lines: [Line; 8],
    l: u32,
    x: Line,
    h: Header,
    clock: u32,
    own: Own,
    m: &[u8],
    out: &mut [u8],
) -> Action
    requires whole { Whole h m.now }
    requires l_bound { (l < 8) × (x ≡ line_in lines l) × (4119 ≤ length out.old) }
    ensures { let terms = terms_of clock own (length out.old) in
        ((area : List ℕ) → Does (ping_step lines l terms m.now area) result out.old out.new) }
{
    if let Err(refusal) = ping_answer(x.pinged, x.pingtime, clock, h) {
        return quietly(u8::from(refusal), x);
    }
    let probe = is_probe(h);
    let number = number_of(m);
    let written = send_pongs(lines, l, clock, own, number, h.hops, probe, out);
    Action {
        report: Report {
            written,
            to: back_to(written, l),
            ..quiet(0)
        },
        ..quietly(0, time_kept(x, probe, clock))
    }
}

// A pong by a line with this record.
pub(crate) fn pong_step(x: Line, h: Header, clock: u32, m: &[u8]) -> Action
    requires { Whole h m.now }
    ensures { (area : List ℕ) → result ≡ action_of (pong_step x clock m.now area) }
{
    if let Err(refusal) = pong_answer(h) {
        return quietly(u8::from(refusal), x);
    }
    let n = HEADER_SIZE + h.size as usize;
    let bytes = first_bytes(&m[HEADER_SIZE..n]);
    quietly(0, store_pong(x, bytes, h.hops, clock))
}
