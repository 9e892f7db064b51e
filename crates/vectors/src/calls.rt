// `case LABEL EVENT ..`, `calls LABEL EVENT ..` and `order LABEL EVENT ..`: what the events of a row told.
// `look LABEL NUMBER EVENT ..`: what a look-up tells after them.
// `relay LABEL LINE LENGTH OUTPUT AREA BYTES EVENT ..`: the table for a line that is made after them.
use crate::{lists, print};
use protocol::{Age, Report};
use replay::{Brought, Told};
use rows::words;
use std::io;
use wire::LARGEST_MESSAGE;

// Eight held areas, one behind the other.
const HELD: usize = 8 * LARGEST_MESSAGE;

fn replayed(row: &[u8], out: &mut [u8], route: &mut [u8]) -> Told {
    let mut held = [0u8; HELD];
    replay::replayed(row, &mut held, out, route)
}

fn answer_word(rt: &impl Print, answer: u8) -> io::Result<()> {
    if replay::waits(answer) {
        rt.write_all(b"waits")
    } else {
        print!(rt; "{answer}")
    }
}

// The bytes used, the lines sent to, and whether the query is offered to the local search.
fn sent_words(rt: &impl Print, r: Report) -> io::Result<()> {
    print::number(rt, r.used)?;
    print::flags(rt, r.to)?;
    print::flag(rt, r.search)
}

// The age that is handed up, `-` for none.
fn age_word(rt: &impl Print, age: Age) -> io::Result<()> {
    if age.known {
        print::number(rt, age.after)
    } else {
        print::start(rt, 0)
    }
}

// How many bytes are held of the line that brought some, whether that is shut, and whether the message that was taken
// stands in the held area.
fn brought_words(rt: &impl Print, b: Brought) -> io::Result<()> {
    print::number(rt, b.held)?;
    print::flag(rt, b.shut)?;
    print::flag(rt, b.within)
}

// The last call's answer.
pub(crate) fn order(rt: &impl Print, row: &[u8], out: &mut [u8]) -> io::Result<()> {
    let mut route = [0u8; 64];
    let told = replayed(row, out, &mut route);
    print::mark(rt, b' ')?;
    answer_word(rt, told.report.answer)
}

// The last call's answer and what it sent, the mark of line 1's table and its four entries, and the bytes written.
pub(crate) fn case(rt: &impl Print, row: &[u8], out: &mut [u8]) -> io::Result<()> {
    let mut route = [0u8; 64];
    let told = replayed(row, &mut *out, &mut route);
    print::mark(rt, b' ')?;
    answer_word(rt, told.report.answer)?;
    sent_words(rt, told.report)?;
    print::number(rt, told.mark)?;
    print::numbers(rt, &route[4..8])?;
    print::hexadecimal(rt, words::part(out, 0, told.report.written))
}

// The answers of all calls, what the last one sent, whether there is something for this station, the age, the bytes
// written, and what there is to tell of a line that brought bytes.
pub(crate) fn calls(rt: &impl Print, row: &[u8], out: &mut [u8]) -> io::Result<()> {
    let mut route = [0u8; 64];
    let told = replayed(row, &mut *out, &mut route);
    let answers = told.answers.as_slice();
    print::start(rt, answers.len())?;
    print::separated(rt, answers, b',', |answer| answer_word(rt, *answer))?;
    sent_words(rt, told.report)?;
    print::flag(rt, told.report.delivered)?;
    age_word(rt, told.report.age)?;
    print::hexadecimal(rt, words::part(out, 0, told.report.written))?;
    match told.brought {
        Some(b) => brought_words(rt, b),
        None => Ok(()),
    }
}

// The answer of the look-up, who asked, and how many were remembered after it.
pub(crate) fn look(rt: &impl Print, row: &[u8], out: &mut [u8]) -> io::Result<()> {
    let mut route = [0u8; 64];
    let mut held = [0u8; HELD];
    let f = replay::looked_up(row, &mut held, out, &mut route);
    print!(rt; " {} {} {}", f.answer, f.asker, f.after)
}

// The answer, the Infinity to write it with, and all bytes of the output, by runs. The area of names has these bytes at
// its front, and zeros behind them.
pub(crate) fn relay(rt: &impl Print, row: &[u8], out: &mut [u8]) -> io::Result<()> {
    let mut route = [0u8; 8192];
    let mut held = [0u8; HELD];
    let mut names = [0u8; 8192];
    let mut room = [0u8; 65544];
    let area = words::front(&mut names, rows::size(row, 0, 3));
    wire::copy_onto(rows::word(row, 0, 4), &mut *area);
    let made = words::front(&mut room, rows::size(row, 0, 2));
    let told = replay::relayed(row, &mut held, out, &mut route, area, &mut *made);
    print!(rt; " {} {}", told.answer, told.infinity)?;
    print::start(rt, made.len())?;
    lists::runs(rt, made)
}
