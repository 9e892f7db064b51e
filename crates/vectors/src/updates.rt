// `update LABEL TTL HOPS PAYLOAD ..` and `withheld LABEL TTL TEXT PAYLOAD ..`: updates on a part of eight bytes that
// holds 7 everywhere at first. TTL and Hops are the last update's, those before it have TTL 1 and Hops 0.
// `table LABEL HAD OLD WAS NEW INFINITY SIZE AREA`, and `run ENTRIES BITS SIZE` with the same words behind these.
use crate::print;
use answer::{Refusal, answer};
use rows::words;
use std::io;
use tablemessages::Written;
use tables::{Table, no_table};
use tablewriter::Wanted;

// The updates that the words from the third on are, the last with this TTL and these Hops: what the last comes to.
fn updated(
    row: &[u8],
    ttl: u8,
    hops: u8,
    table: &mut Table,
    part: &mut [u8],
) -> Result<(), Refusal> {
    let count = rows::count(row);
    let mut outcome = Ok(());
    for n in 2..count {
        let (ttl, hops) = if n + 1 == count { (ttl, hops) } else { (1, 0) };
        let payload = rows::word(row, n, 0);
        outcome = tablereader::updates::update(&mut *table, ttl, hops, payload, &mut *part);
    }
    outcome
}

fn table_words(rt: &impl Print, t: Table) -> io::Result<()> {
    print!(rt; " {} {} {} {}", t.mark, t.length, t.infinity, t.nextplace)?;
    print!(rt; " {} {} {}", t.runsize, t.runbits, t.nextentry)
}

pub(crate) fn update(rt: &impl Print, row: &[u8]) -> io::Result<()> {
    let mut part = [7u8; 8];
    let mut table = no_table();
    let ttl = rows::byte(row, 0, 0);
    let hops = rows::byte(row, 0, 1);
    let outcome = updated(row, ttl, hops, &mut table, &mut part);
    print::number(rt, answer(outcome))?;
    table_words(rt, table)?;
    print::numbers(rt, &part)
}

// Line 0 alone is open, and has the table.
pub(crate) fn withheld(rt: &impl Print, row: &[u8]) -> io::Result<()> {
    let mut part = [7u8; 8];
    let mut table = no_table();
    let _ = updated(row, 1, 0, &mut table, &mut part);
    let passing = forwarding::lines::passing(
        [true, false, false, false, false, false, false, false],
        [table; 8],
        8,
        &part,
        rows::word(row, 0, 1),
        rows::byte(row, 0, 0),
    );
    print::flag(rt, !passing[0])
}

// The update from the old table, or from none where HAD is 0, to the new one.
fn written(row: &[u8], out: &mut [u8]) -> Written {
    let wanted = Wanted {
        had: rows::size(row, 0, 0) != 0,
        was: rows::byte(row, 0, 2),
        infinity: rows::byte(row, 0, 4),
        size: rows::size(row, 0, 5),
    };
    Written::from(tablewriter::write_table(
        [0, 1, 2, 3, 4, 5, 6, 7, 8, 9, 10, 11, 12, 13, 14, 15],
        wanted,
        rows::word(row, 0, 1),
        rows::word(row, 0, 3),
        words::front(out, rows::size(row, 0, 6)),
    ))
}

pub(crate) fn run(rt: &impl Print, row: &[u8], out: &mut [u8]) -> io::Result<()> {
    let w = written(row, out);
    print!(rt; " {} {}", w.answer, w.written)
}

// The same with the bytes written.
pub(crate) fn table(rt: &impl Print, row: &[u8], out: &mut [u8]) -> io::Result<()> {
    let w = written(row, &mut *out);
    print!(rt; " {} {}", w.answer, w.written)?;
    print::hexadecimal(rt, words::part(out, 0, w.written))
}
