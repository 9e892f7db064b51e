// The refusals of a call that brings bytes, before they count.
ghost use Rattle.std.specs.Prelude.{◌≡◌};
ghost use Rattle.laws.specs.Tests.{first_of};
ghost use Rattle.answer.specs.Numbers.{answer_of};
ghost use Rattle.receiving.specs.Feeding.{feed_rules};

use answer::{Refusal, require};
use protocol::{LINES, Line};
use refusals::unfit_areas;
use wire::LARGEST_MESSAGE;

// By a line with this record whose held bytes start a message or not: state, areas, line, line shut, held bytes that
// start no message.
pub fn before_bytes(
    order: bool,
    room: usize,
    out: usize,
    route: usize,
    held: usize,
    line: u32,
    x: Line,
    start: bool,
) -> Result<(), Refusal>
    ensures { answer_of result ≡ first_of (feed_rules order room out route held line x start) }
{
    let fit = !unfit_areas(room, out, route) && LARGEST_MESSAGE <= held;
    require(order, Refusal::NotInOrder)?;
    require(fit, Refusal::BadArea)?;
    require(line < LINES && x.live, Refusal::BadLine)?;
    require(!x.pending.shut, Refusal::Shut)?;
    require(start, Refusal::NotInOrder)
}
