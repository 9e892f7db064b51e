// An arriving update: its line's table, and the part of the route area that belongs to the line.
ghost use Rattle.std.specs.Prelude.{◌≡◌, length};
ghost use Rattle.protocol.specs.Calls.{update_step};
ghost use Rattle.station.specs.Actions.{Arrived, action_of};

use crate::actions::{Action, quietly};
use answer::answer;
use protocol::Line;
use wire::{HEADER_SIZE, Header};

pub(crate) fn update_step(
    room: usize,
    l: u32,
    x: Line,
    h: Header,
    m: &[u8],
    route: &mut [u8],
) -> Action
    requires { Arrived room l h m.now (length route.old) }
    ensures action { result ≡ action_of (update_step room l x m.now route.old) }
    ensures area { route.new ≡ (update_step room l x m.now route.old).route }
{
    let start = l as usize * room;
    let n = HEADER_SIZE + h.size as usize;
    let mut y = x;
    let outcome = tablereader::updates::update(
        &mut y.table,
        h.ttl,
        h.hops,
        &m[HEADER_SIZE..n],
        &mut route[start..start + room],
    );
    quietly(answer(outcome), y)
}
