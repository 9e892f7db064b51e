// The calls over a station whose ring of remembered queries the caller lends, and over a tally. The ring is
// surveyed, crate station says what the call does, and the ring is written; the caller stores the line's record that
// comes back.
ghost use Rattle.std.specs.Prelude.{◌≡◌, ◌%◌, false, length, set, get_or};
ghost use Rattle.protocol.specs.Memory.{memory_of, number_from, number_in, capacity, memory_in_order, queries_in};
ghost use Rattle.protocol.specs.Memory.{find, lookup_of, lookup_in};
ghost use Rattle.protocol.specs.Lines.{lives_in};
ghost use Rattle.protocol.specs.State.{station_of};
ghost use Rattle.protocol.specs.Order.{in_order};
ghost use Rattle.protocol.specs.Outcomes.{terms_of};
ghost use Rattle.protocol.specs.Queries.{usual_limit};
ghost use Rattle.protocol.specs.Calls.{fresh, opening, closing, looking_up};
ghost use Rattle.receiving.specs.Feeding.{feed_outcome};
ghost use Rattle.relaying.specs.Calls.{table_for, table_out_for};
ghost use Rattle.station.specs.Calls.{MessageMet, OwnMet, Changed};
ghost use Rattle.station.specs.Feeding.{FeedMet};
ghost use Rattle.tally.specs.Counts.{counted};

use crate::{Lines, Number};
use memory::Survey;
use memory::leave::leave;
use memory::order::survey;
use memory::remember::{fresh, raise, remember};
use protocol::{Finding, HERE, Line, Own, Report};
use refusals::ages::look_up;
use relaying::{Made, make_table};
use station::asking::ask;
use station::changes::{Beginning, LineChange, begin, close_line, leaver, open_line};
use station::feeding::{feed, header_of};
use station::lines::lives;
use station::messages::arrive;
use station::order::in_order;
use tally::Tally;
use wire::read_header;

// The halves of a number of ones: what a call without a number asks for. In a ring in order the survey looks it up only
// where a word of its filter is all ones.
const ONES: u64 = 18446744073709551615;

// The record of the message's line after it, and what the caller is told.
#[repr(C)]
#[derive(Clone, Copy)]
pub struct Arrival {
    pub line: Line,
    pub report: Report,
}

// The same of bytes as the line brings them, whether the message that was taken stands in the held area (else it stands
// in the bytes that were brought), and whether the call only waits: then the report's answer is none, but WAITING.
#[repr(C)]
#[derive(Clone, Copy)]
pub struct Fed {
    pub line: Line,
    pub report: Report,
    pub within: bool,
    pub waits: bool,
}

// Whether the ring beside these lines is in order, and what it knows of the number (low, high).
fn survey_ring<'a>(
    lo: &'a [u64; 512],
    hi: &'a [u64; 512],
    asker: &'a [u8; 512],
    hits: &'a [u8; 512],
    count: usize,
    next: usize,
    lines: [Line; 8],
    low: u64,
    high: u64,
) -> Survey
    ensures order { let memory = memory_of lo.now hi.now asker.now
        hits.now count next in
        result.order ≡ memory_in_order capacity (λ k. get_or (lives_in lines) k false) memory }
    ensures known { let memory = memory_of lo.now hi.now asker.now
        hits.now count next in
        lookup_in result.known ≡ lookup_of (find (queries_in capacity memory) (number_from low high)) }
{
    let live = lives(lines);
    survey(lo, hi, asker, hits, count, next, live, low, high)
}

// A fresh state over a route area of so many bytes.
pub fn lunozhar_fresh_lent(
    lo: &mut [u64; 512],
    hi: &mut [u64; 512],
    asker: &mut [u8; 512],
    hits: &mut [u8; 512],
    count: &mut usize,
    next: &mut usize,
    route_len: usize,
) -> Beginning
    ensures { let after = station_of result.room result.lines
        (memory_of lo.new hi.new asker.new hits.new count.new
        next.new) in
        Changed (fresh route_len) result.answer after }
{
    fresh(lo, hi, asker, hits, count, next);
    begin(route_len)
}

// A line is opened.
pub fn lunozhar_open_lent<'a>(
    lo: &'a [u64; 512],
    hi: &'a [u64; 512],
    asker: &'a [u8; 512],
    hits: &'a [u8; 512],
    count: usize,
    next: usize,
    room: usize,
    lines: Lines,
    line: u32,
) -> LineChange
    ensures { let memory = memory_of lo.now hi.now asker.now
        hits.now count next in
        let before = station_of room lines.at memory in
        let after = station_of room (set lines.at (line % 8) result.line) memory in
        Changed (opening before line) result.answer after }
{
    let at = lines.at;
    let s = survey_ring(lo, hi, asker, hits, count, next, at, ONES, ONES);
    open_line(s.order, room, at, line)
}

// A line is closed.
pub fn lunozhar_close_lent(
    lo: &mut [u64; 512],
    hi: &mut [u64; 512],
    asker: &mut [u8; 512],
    hits: &mut [u8; 512],
    count: usize,
    next: usize,
    room: usize,
    lines: Lines,
    line: u32,
) -> LineChange
    ensures { let before = station_of room lines.at
        (memory_of lo.old hi.old asker.old hits.old count next) in
        let after = station_of room (set lines.at (line % 8) result.line)
        (memory_of lo.new hi.new asker.new hits.new count next) in
        Changed (closing before line) result.answer after }
{
    let at = lines.at;
    let s = survey_ring(lo, hi, asker, hits, count, next, at, ONES, ONES);
    let change = close_line(s.order, room, at, line);
    leave(asker, leaver(change.answer, line));
    change
}

// An arriving message.
pub fn lunozhar_message_lent(
    lo: &mut [u64; 512],
    hi: &mut [u64; 512],
    asker: &mut [u8; 512],
    hits: &mut [u8; 512],
    count: &mut usize,
    next: &mut usize,
    room: usize,
    lines: Lines,
    line: u32,
    clock: u32,
    own: Own,
    message: &[u8],
    out: &mut [u8],
    route: &mut [u8],
) -> Arrival
    ensures { let before = station_of room lines.at
        (memory_of lo.old hi.old asker.old hits.old count.old
        next.old) in
        let after = station_of room (set lines.at (line % 8) result.line)
        (memory_of lo.new hi.new asker.new hits.new count.new
        next.new) in
        let terms = terms_of clock own (length out.old) in
        MessageMet before line message.now terms route.old result.report after
        out.old out.new route.new }
{
    let at = lines.at;
    let h = read_header(message);
    let s = survey_ring(lo, hi, asker, hits, *count, *next, at, h.lo, h.hi);
    let a = arrive(s, room, at, line, clock, own, message, out, route);
    let by = (line % 8) as u8;
    raise(hits, *next, s.known, a.answered);
    remember(lo, hi, asker, hits, count, next, a.remember, h.lo, h.hi, by);
    Arrival {
        line: a.line,
        report: a.report,
    }
}

// Bytes as a line brings them, with the held area of that line.
pub fn lunozhar_feed_lent(
    lo: &mut [u64; 512],
    hi: &mut [u64; 512],
    asker: &mut [u8; 512],
    hits: &mut [u8; 512],
    count: &mut usize,
    next: &mut usize,
    room: usize,
    lines: Lines,
    line: u32,
    clock: u32,
    own: Own,
    bytes: &[u8],
    held: &mut [u8],
    out: &mut [u8],
    route: &mut [u8],
) -> Fed
    ensures { let before = station_of room lines.at
        (memory_of lo.old hi.old asker.old hits.old count.old
        next.old) in
        let after = station_of room (set lines.at (line % 8) result.line)
        (memory_of lo.new hi.new asker.new hits.new count.new
        next.new) in
        let terms = terms_of clock own (length out.old) in
        let fed = feed_outcome before line bytes.now held.old terms route.old in
        FeedMet fed result.report result.within result.waits after out.old out.new held.new route.new }
{
    let at = lines.at;
    let h = header_of(at, line, held, bytes);
    let s = survey_ring(lo, hi, asker, hits, *count, *next, at, h.lo, h.hi);
    let f = feed(s, room, at, line, clock, own, bytes, held, out, route);
    let a = f.action;
    let from = (line % 8) as u8;
    raise(hits, *next, s.known, a.answered);
    remember(
        lo, hi, asker, hits, count, next, a.remember, h.lo, h.hi, from,
    );
    Fed {
        line: a.line,
        report: a.report,
        within: f.within,
        waits: f.waits,
    }
}

// A query of this station's own.
pub fn lunozhar_ask_lent(
    lo: &mut [u64; 512],
    hi: &mut [u64; 512],
    asker: &mut [u8; 512],
    hits: &mut [u8; 512],
    count: &mut usize,
    next: &mut usize,
    room: usize,
    lines: Lines,
    number: Number,
    text: &[u8],
    out: &mut [u8],
    route: &[u8],
) -> Report
    ensures { let before = station_of room lines.at
        (memory_of lo.old hi.old asker.old hits.old count.old
        next.old) in
        let after = station_of room lines.at
        (memory_of lo.new hi.new asker.new hits.new count.new
        next.new) in
        OwnMet before number.bytes text.now route.now result after out.old out.new }
{
    let at = lines.at;
    let bytes = number.bytes;
    let h = read_header(&bytes);
    let s = survey_ring(lo, hi, asker, hits, *count, *next, at, h.lo, h.hi);
    let report = ask(s, room, at, bytes, text, out, route);
    let taken = report.answer == 0;
    remember(lo, hi, asker, hits, count, next, taken, h.lo, h.hi, HERE);
    report
}

// A number is looked up: who asked, and how many queries were remembered after it.
pub fn lunozhar_look_up_lent<'a>(
    lo: &'a [u64; 512],
    hi: &'a [u64; 512],
    asker: &'a [u8; 512],
    hits: &'a [u8; 512],
    count: usize,
    next: usize,
    room: usize,
    lines: Lines,
    number: Number,
) -> Finding
    ensures { let s = station_of room lines.at
        (memory_of lo.now hi.now asker.now hits.now count next) in
        result ≡ looking_up s (number_in number.bytes) }
{
    let at = lines.at;
    let bytes = number.bytes;
    let h = read_header(&bytes);
    let s = survey_ring(lo, hi, asker, hits, count, next, at, h.lo, h.hi);
    let order = in_order(s.order, room, at);
    Finding::from(look_up(order, s.known))
}

// The table to send the neighbour of a line, at the front of the output.
pub fn lunozhar_table_for_lent<'a>(
    lo: &'a [u64; 512],
    hi: &'a [u64; 512],
    asker: &'a [u8; 512],
    hits: &'a [u8; 512],
    count: usize,
    next: usize,
    room: usize,
    lines: Lines,
    line: u32,
    names: &[u8],
    size: u32,
    out: &mut [u8],
    route: &[u8],
) -> Made
    ensures told { let s = station_of room lines.at
        (memory_of lo.now hi.now asker.now hits.now count next) in
        result ≡ table_for usual_limit s line names.now size (length out.old) (length route.now) }
    ensures bytes { let s = station_of room lines.at
        (memory_of lo.now hi.now asker.now hits.now count next) in
        out.new ≡ table_out_for usual_limit s line names.now size out.old route.now }
{
    let at = lines.at;
    let s = survey_ring(lo, hi, asker, hits, count, next, at, ONES, ONES);
    let order = in_order(s.order, room, at);
    Made::from(make_table(order, room, at, line, names, size, out, route))
}

// Whether a station is in order.
pub fn lunozhar_in_order_lent<'a>(
    lo: &'a [u64; 512],
    hi: &'a [u64; 512],
    asker: &'a [u8; 512],
    hits: &'a [u8; 512],
    count: usize,
    next: usize,
    room: usize,
    lines: Lines,
) -> bool
    ensures { let s = station_of room lines.at
        (memory_of lo.now hi.now asker.now hits.now count next) in
        result ≡ in_order s }
{
    let at = lines.at;
    let s = survey_ring(lo, hi, asker, hits, count, next, at, ONES, ONES);
    in_order(s.order, room, at)
}

// The tally that is lent is brought up by one answer.
pub fn lunozhar_count(tally: &mut Tally, answer: u8)
    ensures { tally.new ≡ counted tally.old answer }
{
    *tally = tally::counted(*tally, answer);
}
