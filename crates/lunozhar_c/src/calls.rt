// The calls over a station whose ring of remembered queries the caller lends, and over a tally.
ghost use Rattle.std.specs.Prelude.{◌≡◌, ◌%◌, length, set};
ghost use Rattle.protocol.specs.Memory.{memory_of, number_in};
ghost use Rattle.protocol.specs.State.{station_of};
ghost use Rattle.protocol.specs.Order.{in_order};
ghost use Rattle.protocol.specs.Outcomes.{terms_of};
ghost use Rattle.protocol.specs.Queries.{usual_limit};
ghost use Rattle.protocol.specs.Calls.{fresh, opening, closing, looking_up};
ghost use Rattle.receiving.specs.Feeding.{feed_outcome};
ghost use Rattle.relaying.specs.Calls.{table_for, table_out_for};
ghost use Rattle.station.specs.Calls.{MessageMet, OwnMet, Changed};
ghost use Rattle.station.specs.Feeding.{FeedMet};
ghost use Rattle.tally.specs.Counts.{counted};

use lunozhar::calls::{Arrival, Fed};
use lunozhar::{Lines, Number};
use protocol::{Finding, Own, Report};
use relaying::Made;
use station::changes::{Beginning, LineChange};
use tally::Tally;

// A fresh state over a route area of so many bytes.
#[unsafe(no_mangle)]
pub extern "C" fn lunozhar_fresh_lent(
    lo: &mut [u64; 512],
    hi: &mut [u64; 512],
    asker: &mut [u8; 512],
    hits: &mut [u8; 512],
    count: &mut usize,
    next: &mut usize,
    route_len: usize,
) -> Beginning
    ensures { let after = station_of result.room result.lines
        (memory_of lo.new hi.new asker.new hits.new count.new
        next.new) in
        Changed (fresh route_len) result.answer after }
{
    lunozhar::calls::lunozhar_fresh_lent(lo, hi, asker, hits, count, next, route_len)
}

// A line is opened.
#[unsafe(no_mangle)]
pub extern "C" fn lunozhar_open_lent<'a>(
    lo: &'a [u64; 512],
    hi: &'a [u64; 512],
    asker: &'a [u8; 512],
    hits: &'a [u8; 512],
    count: usize,
    next: usize,
    room: usize,
    lines: Lines,
    line: u32,
) -> LineChange
    ensures { let memory = memory_of lo.now hi.now asker.now
        hits.now count next in
        let before = station_of room lines.at memory in
        let after = station_of room (set lines.at (line % 8) result.line) memory in
        Changed (opening before line) result.answer after }
{
    lunozhar::calls::lunozhar_open_lent(lo, hi, asker, hits, count, next, room, lines, line)
}

// A line is closed.
#[unsafe(no_mangle)]
pub extern "C" fn lunozhar_close_lent(
    lo: &mut [u64; 512],
    hi: &mut [u64; 512],
    asker: &mut [u8; 512],
    hits: &mut [u8; 512],
    count: usize,
    next: usize,
    room: usize,
    lines: Lines,
    line: u32,
) -> LineChange
    ensures { let before = station_of room lines.at
        (memory_of lo.old hi.old asker.old hits.old count next) in
        let after = station_of room (set lines.at (line % 8) result.line)
        (memory_of lo.new hi.new asker.new hits.new count next) in
        Changed (closing before line) result.answer after }
{
    lunozhar::calls::lunozhar_close_lent(lo, hi, asker, hits, count, next, room, lines, line)
}

// An arriving message.
#[unsafe(no_mangle)]
pub extern "C" fn lunozhar_message_lent(
    lo: &mut [u64; 512],
    hi: &mut [u64; 512],
    asker: &mut [u8; 512],
    hits: &mut [u8; 512],
    count: &mut usize,
    next: &mut usize,
    room: usize,
    lines: Lines,
    line: u32,
    clock: u32,
    own: Own,
    message: &[u8],
    out: &mut [u8],
    route: &mut [u8],
) -> Arrival
    ensures { let before = station_of room lines.at
        (memory_of lo.old hi.old asker.old hits.old count.old
        next.old) in
        let after = station_of room (set lines.at (line % 8) result.line)
        (memory_of lo.new hi.new asker.new hits.new count.new
        next.new) in
        let terms = terms_of clock own (length out.old) in
        MessageMet before line message.now terms route.old result.report after
        out.old out.new route.new }
{
    lunozhar::calls::lunozhar_message_lent(
        lo, hi, asker, hits, count, next, room, lines, line, clock, own, message, out, route,
    )
}

// Bytes as a line brings them, with the held area of that line.
#[unsafe(no_mangle)]
pub extern "C" fn lunozhar_feed_lent(
    lo: &mut [u64; 512],
    hi: &mut [u64; 512],
    asker: &mut [u8; 512],
    hits: &mut [u8; 512],
    count: &mut usize,
    next: &mut usize,
    room: usize,
    lines: Lines,
    line: u32,
    clock: u32,
    own: Own,
    bytes: &[u8],
    held: &mut [u8],
    out: &mut [u8],
    route: &mut [u8],
) -> Fed
    ensures { let before = station_of room lines.at
        (memory_of lo.old hi.old asker.old hits.old count.old
        next.old) in
        let after = station_of room (set lines.at (line % 8) result.line)
        (memory_of lo.new hi.new asker.new hits.new count.new
        next.new) in
        let terms = terms_of clock own (length out.old) in
        let fed = feed_outcome before line bytes.now held.old terms route.old in
        FeedMet fed result.report result.within result.waits after out.old out.new held.new route.new }
{
    lunozhar::calls::lunozhar_feed_lent(
        lo, hi, asker, hits, count, next, room, lines, line, clock, own, bytes, held, out, route,
    )
}

// A query of this station's own.
#[unsafe(no_mangle)]
pub extern "C" fn lunozhar_ask_lent(
    lo: &mut [u64; 512],
    hi: &mut [u64; 512],
    asker: &mut [u8; 512],
    hits: &mut [u8; 512],
    count: &mut usize,
    next: &mut usize,
    room: usize,
    lines: Lines,
    number: Number,
    text: &[u8],
    out: &mut [u8],
    route: &[u8],
) -> Report
    ensures { let before = station_of room lines.at
        (memory_of lo.old hi.old asker.old hits.old count.old
        next.old) in
        let after = station_of room lines.at
        (memory_of lo.new hi.new asker.new hits.new count.new
        next.new) in
        OwnMet before number.bytes text.now route.now result after out.old out.new }
{
    lunozhar::calls::lunozhar_ask_lent(
        lo, hi, asker, hits, count, next, room, lines, number, text, out, route,
    )
}

// A number is looked up: who asked, and how many queries were remembered after it.
#[unsafe(no_mangle)]
pub extern "C" fn lunozhar_look_up_lent<'a>(
    lo: &'a [u64; 512],
    hi: &'a [u64; 512],
    asker: &'a [u8; 512],
    hits: &'a [u8; 512],
    count: usize,
    next: usize,
    room: usize,
    lines: Lines,
    number: Number,
) -> Finding
    ensures { let s = station_of room lines.at
        (memory_of lo.now hi.now asker.now hits.now count next) in
        result ≡ looking_up s (number_in number.bytes) }
{
    lunozhar::calls::lunozhar_look_up_lent(lo, hi, asker, hits, count, next, room, lines, number)
}

// The table to send the neighbour of a line, at the front of the output.
#[unsafe(no_mangle)]
pub extern "C" fn lunozhar_table_for_lent<'a>(
    lo: &'a [u64; 512],
    hi: &'a [u64; 512],
    asker: &'a [u8; 512],
    hits: &'a [u8; 512],
    count: usize,
    next: usize,
    room: usize,
    lines: Lines,
    line: u32,
    names: &[u8],
    size: u32,
    out: &mut [u8],
    route: &[u8],
) -> Made
    ensures told { let s = station_of room lines.at
        (memory_of lo.now hi.now asker.now hits.now count next) in
        result ≡ table_for usual_limit s line names.now size (length out.old) (length route.now) }
    ensures bytes { let s = station_of room lines.at
        (memory_of lo.now hi.now asker.now hits.now count next) in
        out.new ≡ table_out_for usual_limit s line names.now size out.old route.now }
{
    lunozhar::calls::lunozhar_table_for_lent(
        lo, hi, asker, hits, count, next, room, lines, line, names, size, out, route,
    )
}

// Whether a station is in order.
#[unsafe(no_mangle)]
pub extern "C" fn lunozhar_in_order_lent<'a>(
    lo: &'a [u64; 512],
    hi: &'a [u64; 512],
    asker: &'a [u8; 512],
    hits: &'a [u8; 512],
    count: usize,
    next: usize,
    room: usize,
    lines: Lines,
) -> bool
    ensures { let s = station_of room lines.at
        (memory_of lo.now hi.now asker.now hits.now count next) in
        result ≡ in_order s }
{
    lunozhar::calls::lunozhar_in_order_lent(lo, hi, asker, hits, count, next, room, lines)
}

// The tally that is lent is brought up by one answer.
#[unsafe(no_mangle)]
pub extern "C" fn lunozhar_count(tally: &mut Tally, answer: u8)
    ensures { tally.new ≡ counted tally.old answer }
{
    lunozhar::calls::lunozhar_count(tally, answer)
}
