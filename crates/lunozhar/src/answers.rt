// Hits: the results of one read, and the hit for a query written from the station's own names.
ghost use Rattle.std.specs.Prelude.{◌≡◌, length};
ghost use Rattle.hits.specs.Reading.{beginning, next_of};
ghost use Rattle.protocol.specs.Queries.{usual_limit};
ghost use Rattle.answering.specs.Writing.{writing, writing_out};

use answering::HitsWritten;
use hits::reading::{HitCursor, HitHead, HitNext};
use hits::writing::Responder;

// What stands at the front of a hit's payload, and the cursor for its first result.
pub fn lunozhar_hit_begin(payload: &[u8]) -> HitHead
    ensures { result ≡ beginning payload.now }
{
    hits::reading::begin(payload).into()
}

// The next result of a hit, and the cursor moved on behind it.
pub fn lunozhar_hit_next(cursor: HitCursor, payload: &[u8]) -> HitNext
    ensures { result ≡ next_of cursor payload.now }
{
    cursor.told(payload)
}

// The hit for a query that the station's own names give, at the front of the output.
pub fn lunozhar_write_hits<'a>(
    query: &'a [u8],
    names: &'a [u8],
    sizes: &'a [u32],
    from: Responder,
    out: &mut [u8],
) -> HitsWritten
    ensures told { result ≡ writing usual_limit query.now names.now sizes.now from
        (length out.old) }
    ensures bytes { out.new
        ≡ writing_out usual_limit query.now names.now sizes.now from
        out.old }
{
    answerer::write_hits(query, names, sizes, from, out).into()
}
