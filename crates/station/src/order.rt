// Whether a station is in order.
ghost use Rattle.std.specs.Prelude.{◌≡◌};
ghost use Rattle.station.specs.Calls.{both_in_order};

use crate::lines::read_lines;
use protocol::Line;

// Given whether the ring is.
pub fn in_order(order: bool, room: usize, lines: [Line; 8]) -> bool
    ensures { result ≡ both_in_order order room lines }
{
    order & read_lines(lines, room, 0).order
}
