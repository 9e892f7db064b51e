// `names LABEL LENGTH EVENT ..`: an area of so many bytes for the station's own names, zeros at first. A word for each
// call, and what the area lists at the end, by its pairs: where texts lie is not shown.
ghost use Rattle.std.specs.Prelude.{◌≤◌};

use crate::print;
use answer::{Refusal, answer};
use namearea::{Found, count_in, name_of, span_at};
use rows::words;
use std::io;

// The events on an area; the last four set something of it by hand.
#[derive(Clone, Copy, Debug, PartialEq, Eq)]
enum Event {
    Add,
    Remove,
    Find,
    Table,
    Count,
    Pair,
    Name,
    Fill,
}

impl Event {
    // The event that a word names, if it names one.
    fn named(word: &[u8]) -> Option<Event> {
        match word {
            b"add" => Some(Event::Add),
            b"remove" => Some(Event::Remove),
            b"find" => Some(Event::Find),
            b"table" => Some(Event::Table),
            b"count" => Some(Event::Count),
            b"pair" => Some(Event::Pair),
            b"name" => Some(Event::Name),
            b"fill" => Some(Event::Fill),
            _ => None,
        }
    }

    // How many words the event takes, its own name with them.
    fn width(self) -> usize
        ensures below { result ≤ 4 }
        ensures above { 1 ≤ result }
    {
        match self {
            Event::Add | Event::Remove | Event::Find | Event::Count => 2,
            Event::Fill => 3,
            Event::Table | Event::Pair | Event::Name => 4,
        }
    }
}

// Bytes at a place of the area, as far as it has them.
fn put_bytes(area: &mut [u8], at: usize, bytes: &[u8]) {
    if at < area.len() {
        wire::copy_onto(bytes, &mut area[at..]);
    }
}

fn put_number(area: &mut [u8], at: usize, n: u32) {
    put_bytes(area, at, &n.to_le_bytes());
}

// `pair I OFFSET SIZE`; that behind the last of 512 stands in the text.
fn put_pair(area: &mut [u8], i: usize, offset: u32, size: u32) {
    let at = 4 + i % 1024 * 8;
    put_number(&mut *area, at, offset);
    put_number(area, at + 4, size);
}

// `name I OFFSET BYTES`: a pair, and the text that it tells of.
fn put_name(area: &mut [u8], i: usize, offset: u32, bytes: &[u8]) {
    put_pair(&mut *area, i, offset, (bytes.len() % 65536) as u32);
    put_bytes(area, offset as usize, bytes);
}

// `fill N OFFSET`: so many names of two bytes each, one text behind the other, 512 at most; the count is N all the
// same.
fn fill(area: &mut [u8], n: u32, offset: u32) {
    put_number(&mut *area, 0, n);
    for i in 0..n.min(512) {
        let name = [(1 + i % 128) as u8, (1 + i / 128) as u8];
        put_name(&mut *area, i as usize, offset % 65536 + 2 * i, &name);
    }
}

// `add NAME` or `remove NAME`: the answer, with `=` behind it where every byte of the area is as before.
fn changed<F: FnOnce(&mut [u8]) -> Result<(), Refusal>>(
    rt: &impl Print,
    area: &mut [u8],
    change: F,
) -> io::Result<()>
    requires { F.IsAlwaysCallable change }
{
    let mut room = [0u8; 8192];
    let before = words::front(&mut room, area.len());
    wire::copy_onto(area, &mut *before);
    let outcome = change(&mut *area);
    print::number(rt, answer(outcome))?;
    if *before == *area {
        print::mark(rt, b'=')?;
    }
    Ok(())
}

// `find NAME`: the answer and the place.
fn found(rt: &impl Print, area: &[u8], name: &[u8]) -> io::Result<()> {
    let f = Found::from(names::search::find(area, name));
    print!(rt; " {}@{}", f.answer, f.place)
}

// Bytes by runs of equal ones: a byte and how many times it stands there.
pub(crate) fn runs(rt: &impl Print, bytes: &[u8]) -> io::Result<()> {
    for (i, run) in bytes.chunk_by(|a, b| *a == *b).enumerate() {
        if 0 < i {
            print::mark(rt, b',')?;
        }
        if let Some(b) = run.first() {
            print!(rt; "{b}*{}", run.len())?;
        }
    }
    Ok(())
}

// `table LENGTH INFINITY ROOM`: the answer, and all bytes of an output of so many, zeros at first.
fn table(rt: &impl Print, area: &[u8], row: &[u8], k: usize) -> io::Result<()> {
    let mut room = [0u8; 65544];
    let out = words::front(&mut room, rows::size(row, k, 3));
    let size = rows::number(row, k, 1);
    let infinity = rows::byte(row, k, 2);
    let outcome = nametable::own_table(area, size, infinity, &mut *out);
    print!(rt; " {}:", answer(outcome))?;
    runs(rt, out)
}

fn act(rt: &impl Print, event: Event, area: &mut [u8], row: &[u8], k: usize) -> io::Result<()> {
    let name = rows::word(row, k, 1);
    match event {
        Event::Add => return changed(rt, area, |a| namelist::changes::add(a, name)),
        Event::Remove => return changed(rt, area, |a| namelist::changes::remove(a, name)),
        Event::Find => return found(rt, area, name),
        Event::Table => return table(rt, area, row, k),
        Event::Count => put_number(area, 0, rows::number(row, k, 1)),
        Event::Pair => put_pair(
            area,
            rows::size(row, k, 1),
            rows::number(row, k, 2),
            rows::number(row, k, 3),
        ),
        Event::Name => put_name(
            area,
            rows::size(row, k, 1),
            rows::number(row, k, 2),
            rows::word(row, k, 3),
        ),
        Event::Fill => fill(area, rows::number(row, k, 1), rows::number(row, k, 2)),
    }
    Ok(())
}

// The events from the second word on.
fn run(rt: &impl Print, area: &mut [u8], row: &[u8]) -> io::Result<()> {
    let mut k: usize = 1;
    while k < rows::count(row) {
        match Event::named(rows::word(row, k, 0)) {
            Some(event) => {
                act(rt, event, &mut *area, row, k)?;
                k += event.width();
            }
            // A word that names none fills, and takes two words.
            None => {
                act(rt, Event::Fill, &mut *area, row, k)?;
                k += 2;
            }
        }
    }
    Ok(())
}

// The first `count` names.
fn list(rt: &impl Print, area: &[u8], count: usize) -> io::Result<()> {
    print::start(rt, count)?;
    for i in 0..count {
        if 0 < i {
            print::mark(rt, b',')?;
        }
        print::digits(rt, name_of(area, span_at(area, i)))?;
    }
    Ok(())
}

// What every call on the area answers first, and the names where that is 0.
fn listed(rt: &impl Print, area: &[u8]) -> io::Result<()> {
    let outcome = names::search::list_answer(area);
    print::number(rt, answer(outcome))?;
    match outcome {
        Ok(()) => list(rt, area, count_in(area) as usize),
        Err(_) => print::start(rt, 0),
    }
}

pub(crate) fn values(rt: &impl Print, row: &[u8]) -> io::Result<()> {
    let mut room = [0u8; 8192];
    let area = words::front(&mut room, rows::size(row, 0, 0));
    run(rt, &mut *area, row)?;
    listed(rt, area)
}
