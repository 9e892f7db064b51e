// Floor 5: hits for a query, written from the station's own names (RULES 25). It takes no state, and only reads query,
// names and sizes.
#![tactic(auto)]

pub mod asked;
pub mod filling;

ghost use Rattle.std.specs.Prelude.{◌≡◌, ◌+◌, ◌≤◌, length};
ghost use Rattle.laws.specs.Tests.{first_of};
ghost use Rattle.laws.specs.Parts.{over};
ghost use Rattle.wire.specs.Header.{header_size, largest_message, hit_type, header};
ghost use Rattle.hits.specs.Reading.{head_size, mark_size};
ghost use Rattle.hits.specs.Writing.{head_bytes};
ghost use Rattle.protocol.specs.Queries.{usual_limit};
ghost use Rattle.answer.specs.Numbers.{answer_of};
ghost use Rattle.answering.specs.Told.{written_by};
ghost use Rattle.answering.specs.Writing.{results_room, early_rules, writing, writing_out};

use crate::asked::{query_answer, query_number, query_text};
use crate::filling::{Filled, put_results};
use answer::{Refusal, require};
use answering::WrittenHit;
use hits::reading::{HEAD_SIZE, MARK_SIZE};
use hits::writing::{Responder, put_head};
use matching::matching_places;
use namearea::count_in;
use names::search::list_answer;
use protocol::LIMIT;
use wire::{HEADER_SIZE, Kind, LARGEST_MESSAGE, copy_onto, put_header, read_header};

// Where the results begin in the output, and where they end at most.
const RESULTS_FROM: usize = HEADER_SIZE + HEAD_SIZE;

const RESULTS_END: usize = LARGEST_MESSAGE - MARK_SIZE;

// The refusals before the names are searched, in their order, given how many sizes and bytes of output are lent.
fn refusal(limit: u8, query: &[u8], names: &[u8], sizes: usize, out: usize) -> Result<(), Refusal>
    ensures { answer_of result ≡ first_of (early_rules limit query.now names.now sizes out) }
{
    list_answer(names)?;
    require(
        count_in(names) as usize <= sizes && LARGEST_MESSAGE <= out,
        Refusal::BadArea,
    )?;
    query_answer(limit, query)
}

// What stands around the results of a hit that are there already, `size` bytes of them: the mark behind them, before
// them what tells of them, and the header.
fn finish(number: [u8; 16], ttl: u8, filled: Filled, from: Responder, out: &mut [u8]) -> WrittenHit
    requires { (filled.size ≤ results_room) × (largest_message ≤ length out.old) }
    ensures told { result
        ≡ record { results = filled.results; size = header_size + head_size + mark_size + filled.size } }
    ensures bytes { out.new ≡ over 0 (header number hit_type ttl 0 (head_size + mark_size + filled.size))
        (over header_size (head_bytes filled.results from)
        (over (header_size + head_size + filled.size) from.mark out.old)) }
{
    let Filled { results, size } = filled;
    let mark = from.mark;
    let behind = RESULTS_FROM + size;
    copy_onto(&mark, &mut out[behind..]);
    put_head(results, from, &mut out[HEADER_SIZE..]);
    let payload = HEAD_SIZE + size + MARK_SIZE;
    put_header(number, Kind::Hit.into(), ttl, 0, payload as u32, &mut *out);
    WrittenHit {
        results,
        size: HEADER_SIZE + payload,
    }
}

// A hit for a query, with a limit to its Hops.
fn write_within(
    limit: u8,
    query: &[u8],
    names: &[u8],
    sizes: &[u32],
    from: Responder,
    out: &mut [u8],
) -> Result<WrittenHit, Refusal>
    ensures told { written_by result ≡ writing limit query.now names.now sizes.now from
        (length out.old) }
    ensures bytes { out.new
        ≡ writing_out limit query.now names.now sizes.now from out.old }
{
    refusal(limit, query, names, sizes.len(), out.len())?;
    let found = matching_places(query_text(query), names);
    let filled = put_results(&found, names, sizes, &mut out[RESULTS_FROM..RESULTS_END]);
    require(filled.results != 0, Refusal::NotFound)?;
    let number = query_number(query);
    let h = read_header(query);
    Ok(finish(number, h.hops + 1, filled, from, out))
}

// The hit for a query that the station's own names give, at the front of the output.
pub fn write_hits(
    query: &[u8],
    names: &[u8],
    sizes: &[u32],
    from: Responder,
    out: &mut [u8],
) -> Result<WrittenHit, Refusal>
    ensures told { written_by result ≡ writing usual_limit query.now names.now sizes.now from
        (length out.old) }
    ensures bytes { out.new
        ≡ writing_out usual_limit query.now names.now sizes.now from
        out.old }
{
    write_within(LIMIT, query, names, sizes, from, out)
}
