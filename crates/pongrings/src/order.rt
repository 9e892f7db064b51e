// Whether a line is in order (RULES 4.5 to 4.8).
ghost use Rattle.std.specs.Prelude.{◌≡◌, not, ◌&&◌, ◌||◌, ◌<◌, eqb};
ghost use Rattle.laws.specs.Ring.{back};
ghost use Rattle.protocol.specs.Order.{line_in_order};
ghost use Rattle.pongrings.specs.Ring.{hops_in, low_at};

use protocol::{Line, PONG_HOPS, Pong};

// Of a closed line nothing is kept (RULES 4.5).
fn empty_when_closed(live: bool, mark: u8, count: usize, pinged: bool) -> bool
    ensures { result ≡ (live || (eqb mark 0 && (eqb count 0 && not pinged))) }
{
    live || (mark == 0 && count == 0 && !pinged)
}

// The Hops at the ten places of a ring. The loop below goes through these, and the ring itself is not copied.
fn hops_in(pongs: [Pong; 10]) -> [u8; 10]
    ensures { result ≡ hops_in pongs }
{
    [
        pongs[0].hops,
        pongs[1].hops,
        pongs[2].hops,
        pongs[3].hops,
        pongs[4].hops,
        pongs[5].hops,
        pongs[6].hops,
        pongs[7].hops,
        pongs[8].hops,
        pongs[9].hops,
    ]
}

// The ring's place before this one.
fn place_before(place: usize) -> usize
    requires { place < 10 }
    ensures { result ≡ back 10 place }
{
    if place == 0 { 9 } else { place - 1 }
}

// The Hops of each kept pong are at most `PONG_HOPS`: those at the `count` places before `next`.
#[tactic(auto, using(crate::proofs::RingLaws::low_fails))]
fn low_hops(hops: [u8; 10], next: usize, count: usize) -> bool
    requires { next < 10 }
    ensures { result ≡ low_at hops next count }
{
    let mut place = next;
    for _ in 0..count {
        place = place_before(place);
        if PONG_HOPS < hops[place] {
            return false;
        }
    }
    true
}

// The line is in order, with room for this many entries of its table.
pub fn line_in_order(x: Line, room: usize) -> bool
    ensures { result ≡ line_in_order room x }
{
    if !empty_when_closed(x.live, x.table.mark, x.pongcount, x.pinged)
        || 10 < x.pongcount
        || 10 <= x.pongnext
    {
        return false;
    }
    low_hops(hops_in(x.pongs), x.pongnext, x.pongcount)
        && tablereader::order::in_order(x.table, room)
}
