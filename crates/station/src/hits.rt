// An arriving hit: delivered here, or passed back to the line its query came by.
ghost use Rattle.std.specs.Prelude.{◌≡◌, ◌+◌, ◌≤◌, List, ℕ, length};
ghost use Rattle.wire.specs.Header.{header_in, hit_type};
ghost use Rattle.protocol.specs.Hits.{hit_step};
ghost use Rattle.station.specs.Actions.{Sendable, Does};

use crate::actions::{Action, only_to, quiet, refused};
use forwarding::messages::pass_on;
use protocol::{HERE, Known, Line, Report};
use refusals::ages::hit_age;
use wire::{HEADER_SIZE, Header};

// `known` is what the look-up of its query's number found, and `line` the record of the line it came by.
pub(crate) fn hit_step<K: Known>(
    line: Line,
    h: Header,
    known: K,
    m: &[u8],
    out: &mut [u8],
) -> Action
    requires { Sendable h hit_type m.now (length out.old) }
    ensures { (area : List ℕ) → Does (hit_step line (K.lookup known) m.now area) result out.old out.new }
{
    let age = hit_age(h, known);
    let query = match refusals::hit(h, known) {
        Ok(query) => query,
        Err(refusal) => return refused(refusal, line, age),
    };
    let report = if query.asker == HERE {
        Report {
            delivered: true,
            age,
            ..quiet(0)
        }
    } else {
        let n = HEADER_SIZE + h.size as usize;
        Report {
            written: pass_on(m, n, h.ttl - 1, h.hops + 1, out),
            to: only_to(query.asker),
            age,
            ..quiet(0)
        }
    };
    Action {
        report,
        line,
        remember: false,
        answered: true,
    }
}
