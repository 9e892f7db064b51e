// The query that hits are written for: its refusals, and its text.
ghost use Rattle.std.specs.Prelude.{◌≡◌, true, ◌+◌, ◌≤◌, length};
ghost use Rattle.laws.specs.Tests.{first_of};
ghost use Rattle.wire.specs.Header.{header_size, largest_payload, number_of, size_of, payload_of};
ghost use Rattle.protocol.specs.Queries.{has_text};
ghost use Rattle.answer.specs.Numbers.{answer_of};
ghost use Rattle.answering.specs.Writing.{asked_rules, asked_text};

use answer::{Refusal, require};
use forwarding::texts::text_length;
use wire::{HEADER_SIZE, Kind, padded, read_header};

// The refusals of a query before its number would be looked up, and UnknownType for any other type of message.
pub(crate) fn query_answer(limit: u8, query: &[u8]) -> Result<(), Refusal>
    ensures { answer_of result ≡ first_of (asked_rules limit query.now) }
{
    let h = read_header(query);
    refusals::extent(query.len(), h.size)?;
    require(h.kind == Kind::Query.into(), Refusal::UnknownType)?;
    let end = HEADER_SIZE + (h.size as usize);
    let text = text_length(&query[HEADER_SIZE..end]);
    // the number is not looked up: nothing is known of it
    refusals::query(limit, h, text.ended, None)
}

// The text of a query that is whole and has one.
pub(crate) fn query_text(query: &[u8]) -> &[u8]
    requires { (size_of query.now ≤ largest_payload) × (header_size + size_of query.now ≤ length query.now)
        × (has_text (payload_of query.now) ≡ true) }
    ensures { result.now ≡ asked_text query.now }
{
    let h = read_header(query);
    let end = HEADER_SIZE + (h.size as usize);
    let payload = &query[HEADER_SIZE..end];
    let text = text_length(payload);
    let text_end = 2 + text.length;
    &payload[2..text_end]
}

// The number of a query that has a whole header.
pub(crate) fn query_number(query: &[u8]) -> [u8; 16]
    requires { header_size ≤ length query.now }
    ensures { result ≡ number_of query.now }
{
    padded(query)
}
