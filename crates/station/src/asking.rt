// An own query: its refusals, and the lines it goes to.
ghost use Rattle.std.specs.Prelude.{◌≡◌, List, ℕ, ◌≤◌, length};
ghost use Rattle.protocol.specs.declared.Line.{Line};
ghost use Rattle.protocol.specs.Outcomes.{hands_up};
ghost use Rattle.protocol.specs.Queries.{usual_limit};
ghost use Rattle.station.specs.Actions.{view_of};
ghost use Rattle.station.specs.Calls.{Sends, own_answer_by, own_age_by, own_query_sent};

use crate::actions::quiet;
use crate::lines::{View, read_lines};
use forwarding::lines::{any_line, passing};
use forwarding::messages::own_query;
use forwarding::texts::any_zero;
use memory::Survey;
use protocol::{Known, LIMIT, Line, Report};
use refusals::ages::repeat_age;

// An own query that is not refused is written where it goes to some line.
fn send_own(
    limit: u8,
    room: usize,
    v: View,
    number: [u8; 16],
    text: &[u8],
    out: &mut [u8],
    route: &[u8],
) -> Report
    requires { (length text.now ≤ 4093) × (4119 ≤ length out.old) }
    ensures { (lines : List Line) (l : ℕ) → v ≡ view_of lines room l
        → Sends (own_query_sent limit 0 room lines number text.now route.now) result out.old out.new }
{
    let to = passing(v.live, v.tables, room, route, text, limit);
    if !any_line(to) {
        return Report { to, ..quiet(0) };
    }
    Report {
        written: own_query(number, limit, text, out),
        to,
        ..quiet(0)
    }
}

// A query of this station's own, given whether the ring is in order and what it knows of the number, which the ring
// takes in where the answer is 0.
pub fn ask<K: Known>(
    s: Survey<K>,
    room: usize,
    lines: [Line; 8],
    number: [u8; 16],
    text: &[u8],
    out: &mut [u8],
    route: &[u8],
) -> Report
    ensures { let known = K.lookup s.known in
        let n = own_answer_by s.order known room lines text.now (length out.old) (length route.now) in
        let age = own_age_by s.order known room lines text.now (length out.old) (length route.now) in
        let sent = own_query_sent usual_limit n room lines number text.now route.now in
        Sends (hands_up age sent) result out.old out.new }
{
    let v = read_lines(lines, room, 0);
    let outcome = refusals::own(
        s.order & v.order,
        room,
        out.len(),
        route.len(),
        text.len(),
        any_zero(text),
        s.known,
    );
    let age = repeat_age(outcome, s.known);
    match outcome {
        Ok(()) => Report {
            age,
            ..send_own(LIMIT, room, v, number, text, out, route)
        },
        Err(refusal) => Report {
            age,
            ..quiet(u8::from(refusal))
        },
    }
}
