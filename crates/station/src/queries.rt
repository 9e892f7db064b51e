// An arriving query: answered, and passed on to the lines that it goes to.
ghost use Rattle.std.specs.Prelude.{◌≡◌, List, ℕ, ◌-◌, ◌<◌, min, length};
ghost use Rattle.wire.specs.Header.{query_type};
ghost use Rattle.protocol.specs.declared.Line.{Line};
ghost use Rattle.protocol.specs.Queries.{query_step};
ghost use Rattle.station.specs.Actions.{Sendable, Does, view_of};

use crate::actions::{Action, quiet, refused};
use crate::lines::View;
use forwarding::lines::{any_line, going};
use forwarding::messages::pass_if;
use forwarding::texts::text_length;
use protocol::{Known, Report};
use refusals::ages::repeat_age;
use wire::{HEADER_SIZE, Header};

// A query by line l, given what is read off the lines, whichever they are; `known` is what the look-up of its number
// found. Its life is its TTL or limit - Hops, whichever is less (RULES 7.2).
pub(crate) fn query_step<K: Known>(
    limit: u8,
    room: usize,
    v: View,
    l: u32,
    h: Header,
    known: K,
    m: &[u8],
    out: &mut [u8],
    route: &[u8],
) -> Action
    requires { Sendable h query_type m.now (length out.old) }
    ensures { (lines : List Line) → v ≡ view_of lines room l
        → Does (query_step limit room lines l (K.lookup known) m.now route.now) result out.old out.new }
{
    let n = HEADER_SIZE + h.size as usize;
    let payload = &m[HEADER_SIZE..n];
    let text = text_length(payload);
    let outcome = refusals::query(limit, h, text.ended, known);
    if let Err(refusal) = outcome {
        return refused(refusal, v.line, repeat_age(outcome, known));
    }
    let end = 2 + text.length;
    let life = h.ttl.min(limit - h.hops);
    let to = going(v.live, v.tables, room, route, l, life, &payload[2..end]);
    Action {
        report: Report {
            written: pass_if(any_line(to), m, n, life - 1, h.hops + 1, out),
            to,
            search: true,
            textat: 25,
            textlen: text.length,
            ..quiet(0)
        },
        line: v.line,
        remember: true,
        answered: false,
    }
}
