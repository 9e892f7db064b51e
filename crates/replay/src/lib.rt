// The events of a row, one after the other on a fresh station over a route area of 32 bytes, with a held area of 4,119
// bytes for each of the eight lines. Nothing is printed here.
#![tactic(auto)]

mod calls;
mod events;
mod set;

ghost use Rattle.std.specs.Prelude.{◌≤◌, ◌≡◌, ◌⊎◌, eqb, take};
ghost use Rattle.protocol.specs.Calls.{unfound};
ghost use Rattle.protocol.specs.Queries.{usual_limit, infinity_written};
ghost use Rattle.relaying.specs.Calls.{told_by};

use crate::calls::{Bringing, Held};
use crate::events::Event;
use lunozhar::Number;
use protocol::{Finding, Report};
use relaying::Made;
use rows::words;

// Of a line that brought bytes: how many are held of it, whether it is shut, and whether the message that was taken
// stands in the held area.
#[derive(Clone, Copy)]
pub struct Brought {
    pub held: u16,
    pub shut: bool,
    pub within: bool,
}

// The answers of a row's first 256 calls, at the front, and how many these are.
#[derive(Clone, Copy)]
pub struct Answers {
    pub bytes: [u8; 256],
    pub count: usize,
    ghost within: { count ≤ 256 },
}

impl Answers {
    fn none() -> Answers {
        Answers {
            bytes: [0; 256],
            count: 0,
        }
    }

    // One answer more, while there is room for it.
    fn note(&mut self, answer: u8) {
        if self.count < 256 {
            self.bytes[self.count] = answer;
            self.count += 1;
        }
    }

    pub fn as_slice(&self) -> &[u8]
        ensures { result.now ≡ take self.now.count self.now.bytes }
    {
        &self.bytes[..self.count]
    }
}

// What a row's calls told: their answers; the whole report of the last call; the mark of line 1's table after all; and
// what there is to tell of a line that the last call brought bytes by.
#[derive(Clone, Copy)]
pub struct Told {
    pub answers: Answers,
    pub report: Report,
    pub mark: u8,
    pub brought: Option<Brought>,
}

// What a row's events came to: the answers, and the station after all of them.
#[derive(Clone, Copy)]
struct Done {
    answers: Answers,
    station: Held,
}

// How much of the output and of the route area is lent, and whether the station takes calls.
#[derive(Clone, Copy)]
struct Terms {
    output: usize,
    route: usize,
    calls: bool,
}

// Whether this is what stands where the answer would be of a call that waits: the number itself, as a caller knows it.
pub fn waits(answer: u8) -> bool
    ensures { result ≡ eqb answer 255 }
{
    answer == 255
}

// The number that a word is: its first 16 bytes, and zeros for those that are not there.
fn number(bytes: &[u8]) -> Number {
    let mut number = [0u8; 16];
    wire::copy_onto(bytes, &mut number);
    Number { bytes: number }
}

// The held area of a line, counted modulo eight, as much of it as is lent.
fn held_by(held: &mut [u8], line: u32, lent: usize) -> &mut [u8] {
    let at = line as usize % 8 * wire::LARGEST_MESSAGE;
    let n = lent.min(wire::LARGEST_MESSAGE);
    if at < held.len() {
        words::front(&mut held[at..], n)
    } else {
        words::front(held, n)
    }
}

// The event at word k.
fn act(
    w: &mut Held,
    event: Event,
    row: &[u8],
    k: usize,
    held: &mut [u8],
    out: &mut [u8],
    route: &mut [u8],
) {
    match event {
        Event::Open => w.open(rows::number(row, k, 1)),
        Event::Close => w.close(rows::number(row, k, 1)),
        Event::Message => w.message(
            rows::number(row, k, 1),
            rows::number(row, k, 2),
            rows::word(row, k, 3),
            out,
            route,
        ),
        Event::Feed => {
            let line = rows::number(row, k, 1);
            let clock = rows::number(row, k, 2);
            let area = held_by(held, line, w.lent);
            w.feed(line, clock, rows::word(row, k, 3), area, out, route)
        }
        Event::Ask => w.ask(
            number(rows::word(row, k, 1)),
            rows::word(row, k, 2),
            out,
            route,
        ),
        _ => set::by_hand(w, event, row, k, route),
    }
}

// What is told of a line that bytes came by.
fn told_of_line(w: &Held, b: Bringing) -> Brought {
    let pending = w.station.line(b.line).pending;
    Brought {
        held: pending.count,
        shut: pending.shut,
        within: b.within,
    }
}

// The events from word k on.
fn run(
    w: &mut Held,
    row: &[u8],
    mut k: usize,
    held: &mut [u8],
    out: &mut [u8],
    route: &mut [u8],
) -> Answers
    requires { k ≤ 5 }
{
    let mut answers = Answers::none();
    while k < rows::count(row) {
        match Event::named(rows::word(row, k, 0)) {
            Some(event) => {
                act(w, event, row, k, held, out, route);
                if event.is_call() {
                    answers.note(w.report.answer);
                }
                k += event.width();
            }
            None => k += 1,
        }
    }
    answers
}

// `terms OUTPUT ROUTE CALLS`, if that is the event at word k, or the usual terms.
fn terms_at(row: &[u8], k: usize) -> Terms {
    match Event::named(rows::word(row, k, 0)) {
        Some(Event::Terms) => Terms {
            output: rows::size(row, k, 1),
            route: rows::size(row, k, 2),
            calls: rows::size(row, k, 3) != 0,
        },
        _ => Terms {
            output: wire::LARGEST_MESSAGE,
            route: 32,
            calls: true,
        },
    }
}

// The events from word k on, over these areas.
fn ran(row: &[u8], k: usize, held: &mut [u8], out: &mut [u8], route: &mut [u8]) -> Done
    requires { k ≤ 5 }
{
    let terms = terms_at(row, k);
    let mut station = Held::started(terms.calls);
    let out = words::front(out, terms.output);
    let route = words::front(route, terms.route);
    let answers = run(&mut station, row, k, held, out, route);
    Done { answers, station }
}

// What the row's events tell, over these areas; the held ones stand one behind the other.
pub fn replayed(row: &[u8], held: &mut [u8], out: &mut [u8], route: &mut [u8]) -> Told
    ensures { result.answers.count ≤ 256 }
{
    let Done { answers, station } = ran(row, 0, held, out, route);
    Told {
        answers,
        report: station.report,
        mark: station.station.line(1).table.mark,
        brought: station.bringing.map(|b| told_of_line(&station, b)),
    }
}

// What the table call tells after the events from the sixth word on: the line and the length are the row's first words,
// the names those of an area. The table stands at the front of `made`.
pub fn relayed(
    row: &[u8],
    held: &mut [u8],
    out: &mut [u8],
    route: &mut [u8],
    names: &[u8],
    made: &mut [u8],
) -> Made
    ensures { result ≡ told_by result.answer (infinity_written usual_limit) }
{
    let done = ran(row, 5, held, out, &mut *route);
    let lent = words::front(route, terms_at(row, 5).route);
    let line = rows::number(row, 0, 0);
    let size = rows::number(row, 0, 1);
    done.station.table_for(line, names, size, made, lent)
}

// What the look-up of the number that is the row's first word tells after the events that follow it; refused, of nobody
// and of none.
pub fn looked_up(row: &[u8], held: &mut [u8], out: &mut [u8], route: &mut [u8]) -> Finding
    ensures { (result.answer ≡ 0) ⊎ (result ≡ unfound result.answer) }
{
    let done = ran(row, 1, held, out, route);
    done.station.look_up(number(rows::word(row, 0, 0)))
}
