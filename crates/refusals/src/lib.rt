// Floor 4: the ordered refusals of the calls, as number functions: plain values in, a number of RULES 2.1 out, 0
// where nothing is refused; in `ages` what is told besides of a number that was looked up. Each makes the tests of its
// rules, which are those of crate protocol; a function beside it has their numbers and their order.
#![tactic(auto)]

pub mod ages;

ghost use Rattle.std.specs.Prelude.{◌≡◌, IfOk};
ghost use Rattle.laws.specs.Tests.{first_of};
ghost use Rattle.answer.specs.Numbers.{answer_of};
ghost use Rattle.protocol.specs.Memory.{remembered_in};
ghost use Rattle.protocol.specs.Queries.{query_rules};
ghost use Rattle.protocol.specs.Hits.{hit_rules};
ghost use Rattle.protocol.specs.Calls.{other_room, unfit_areas, extent_rules, early_rules, opening_rules, closing_rules, own_rules};

use answer::{Refusal, require};
use protocol::{GONE, HERE, HITS, Known, LARGEST_TEXT, LINES, Remembered};
use wire::{HEADER_SIZE, Header, LARGEST_MESSAGE, LARGEST_PAYLOAD};

// Is the route area too short, or does it give another room?
pub fn other_room(room: usize, route: usize) -> bool
    ensures { result ≡ other_room room route }
{
    route < 32 || route / 8 != room
}

// Do the areas that a message or an own query is lent not fit: one is too short, or the route area has another room?
pub fn unfit_areas(room: usize, out: usize, route: usize) -> bool
    ensures { result ≡ unfit_areas room out route }
{
    out < LARGEST_MESSAGE || other_room(room, route)
}

// What bytes are of a message, of which `len` are there, and whose header says `size` for its payload: less than a
// header, a payload too long, less than the payload, or a whole message.
pub fn extent(len: usize, size: u32) -> Result<(), Refusal>
    ensures { answer_of result ≡ first_of (extent_rules len size) }
{
    let n = size as usize;
    require(HEADER_SIZE <= len, Refusal::NotWhole)?;
    require(n <= LARGEST_PAYLOAD, Refusal::TooLong)?;
    require(HEADER_SIZE + n <= len, Refusal::NotWhole)
}

// The refusals of an arriving message before its type counts: state, areas, line, extent.
pub fn early(
    order: bool,
    room: usize,
    out: usize,
    route: usize,
    line: u32,
    live: bool,
    len: usize,
    size: u32,
) -> Result<(), Refusal>
    ensures { answer_of result ≡ first_of (early_rules order room out route line live len size) }
{
    require(order, Refusal::NotInOrder)?;
    require(!unfit_areas(room, out, route), Refusal::BadArea)?;
    require(line < LINES && live, Refusal::BadLine)?;
    extent(len, size)
}

// The refusals of opening a line.
pub fn opening(order: bool, line: u32, live: bool) -> Result<(), Refusal>
    ensures { answer_of result ≡ first_of (opening_rules order line live) }
{
    require(order, Refusal::NotInOrder)?;
    require(line < LINES && !live, Refusal::BadLine)
}

// The refusals of closing a line.
pub fn closing(order: bool, line: u32, live: bool) -> Result<(), Refusal>
    ensures { answer_of result ≡ first_of (closing_rules order line live) }
{
    require(order, Refusal::NotInOrder)?;
    require(line < LINES && live, Refusal::BadLine)
}

// The refusals of an own query, whose text has `size` bytes and a zero byte or none.
pub fn own<K: Known>(
    order: bool,
    room: usize,
    out: usize,
    route: usize,
    size: usize,
    zero: bool,
    known: K,
) -> Result<(), Refusal>
    ensures { answer_of result ≡ first_of (own_rules order room out route size zero (K.lookup known)) }
{
    require(order, Refusal::NotInOrder)?;
    require(!unfit_areas(room, out, route), Refusal::BadArea)?;
    require(size <= LARGEST_TEXT, Refusal::TooLong)?;
    require(!zero, Refusal::BadPayload)?;
    require(known.remembered().is_none(), Refusal::Repeated)
}

// The refusals of an arriving query, whose text is ended by a zero byte or not.
pub fn query<K: Known>(limit: u8, h: Header, ended: bool, known: K) -> Result<(), Refusal>
    ensures { answer_of result ≡ first_of (query_rules limit h ended (K.lookup known)) }
{
    require(ended, Refusal::BadPayload)?;
    require(
        0 < h.ttl && h.ttl <= 15 && h.hops < limit,
        Refusal::BadTtlOrHops,
    )?;
    require(known.remembered().is_none(), Refusal::Repeated)
}

// The refusals of a hit, and the query that it answers. One for a query that was asked here is delivered before the
// last two.
pub fn hit<K: Known>(h: Header, known: K) -> Result<Remembered, Refusal>
    ensures number { answer_of result ≡ first_of (hit_rules h (K.lookup known)) }
    ensures query { IfOk result (λ q. remembered_in (K.lookup known) ≡ Some q) }
{
    require(27 <= h.size, Refusal::BadPayload)?;
    require(h.ttl != 0, Refusal::BadTtlOrHops)?;
    let query = known.remembered().ok_or(Refusal::NotFound)?;
    require(query.asker != GONE, Refusal::AskerClosed)?;
    require(query.hits != HITS, Refusal::AnsweredEnough)?;
    let away = query.asker != HERE;
    require(!(away && h.ttl == 1), Refusal::BadTtlOrHops)?;
    require(!(away && h.hops == 255), Refusal::HopsFull)?;
    Ok(query)
}
