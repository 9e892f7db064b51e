// What an arriving message does, but for the state: the step of its type.
ghost use Rattle.std.specs.Prelude.{◌≡◌, ◌<◌, length};
ghost use Rattle.protocol.specs.Queries.{usual_limit};
ghost use Rattle.protocol.specs.Calls.{by_type};
ghost use Rattle.protocol.specs.Outcomes.{terms_of};
ghost use Rattle.station.specs.Actions.{Fit, Does, view_of};

use crate::actions::{Action, quietly};
use crate::hits::hit_step;
use crate::lines::View;
use crate::pings::{ping_step, pong_step};
use crate::queries::query_step;
use crate::updates::update_step;
use answer::Refusal;
use protocol::{Known, LIMIT, Line, Own};
use wire::{Header, Kind};

// The message is whole and its areas fit. `known` is what the look-up of its number found. `v` is what is read off the
// lines, which only a ping looks at again.
pub(crate) fn act<K: Known>(
    known: K,
    room: usize,
    lines: [Line; 8],
    v: View,
    l: u32,
    h: Header,
    clock: u32,
    own: Own,
    m: &[u8],
    out: &mut [u8],
    route: &mut [u8],
) -> Action
    requires l_bound { (l < 8) × (v ≡ view_of lines room l) }
    requires fit { Fit room h m.now (length out.old) (length route.old) }
    ensures does { let terms = terms_of clock own (length out.old) in
        let step = by_type usual_limit room lines l (K.lookup known) m.now terms route.old in
        Does step result out.old out.new }
    ensures area { let terms = terms_of clock own (length out.old) in
        let step = by_type usual_limit room lines l (K.lookup known) m.now terms route.old in
        route.new ≡ step.route }
{
    match Kind::try_from(h.kind) {
        Ok(Kind::Ping) => ping_step(lines, l, v.line, h, clock, own, m, out),
        Ok(Kind::Pong) => pong_step(v.line, h, clock, m),
        Ok(Kind::RouteUpdate) => update_step(room, l, v.line, h, m, route),
        Ok(Kind::Query) => query_step(LIMIT, room, v, l, h, known, m, out, route),
        Ok(Kind::Hit) => hit_step(v.line, h, known, m, out),
        Err(_) => quietly(u8::from(Refusal::UnknownType), v.line),
    }
}
