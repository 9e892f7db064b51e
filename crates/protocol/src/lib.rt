// Floor 3: what a station's state is made of, and what its calls bring and hand back. The rules of the calls are the
// definitions of specs/; the history theorems about them are in proofs/. The code that meets them stands in the crates
// above.
#![tactic(auto)]

pub mod lines;

ghost use Rattle.std.specs.Prelude.{◌≡◌};
ghost use Rattle.protocol.specs.Memory.{lookup_in, remembered_in, age_in};
ghost use Rattle.protocol.specs.Calls.{finding_in};

use answer::Refusal;
use tables::Table;
use wire::LARGEST_PAYLOAD;

// Lines of a station, and queries that it remembers.
pub const LINES: u32 = 8;

pub const CAPACITY: usize = 512;

// The askers of a remembered query that are no line: this station, a line that has closed since, and nobody, for a
// number that is not remembered.
pub const HERE: u8 = 8;

pub const GONE: u8 = 9;

pub const NOBODY: u8 = 10;

// The most hits of one query that are passed back or delivered.
pub const HITS: u8 = 200;

// The usual life of a query.
pub const LIMIT: u8 = 7;

// The most Hops of a pong that is stored: a number of its own, whatever the life of a query is.
pub const PONG_HOPS: u8 = 7;

// The longest text of an own query: two bytes of speed and a zero byte go with it.
pub const LARGEST_TEXT: usize = LARGEST_PAYLOAD - 3;

// A stored pong: its first 14 bytes, its Hops, and the clock of the call that brought it.
#[repr(C)]
#[derive(Clone, Copy)]
pub struct Pong {
    pub bytes: [u8; 14],
    pub hops: u8,
    pub clock: u32,
}

// What a line has brought of a message that is not whole: how many bytes, which stand in the held area that the caller
// lends for that line, and whether the line is shut, which takes no more bytes until it is closed and opened.
#[repr(C)]
#[derive(Clone, Copy)]
pub struct Pending {
    pub count: u16,
    pub shut: bool,
}

// One line: whether it is open, the time of the last accepted ping, a ring of ten pongs, its neighbour's table, whose
// entries are in the route area, and the message that it has begun.
#[repr(C)]
#[derive(Clone, Copy)]
pub struct Line {
    pub live: bool,
    pub pinged: bool,
    pub pingtime: u32,
    pub pongcount: usize,
    pub pongnext: usize,
    pub pongs: [Pong; 10],
    pub table: Table,
    pub pending: Pending,
}

// What this station says of itself in a pong, and whether it takes calls.
#[repr(C)]
#[derive(Clone, Copy)]
pub struct Own {
    pub port: u16,
    pub address: [u8; 4],
    pub files: u32,
    pub kilobytes: u32,
    pub calls: bool,
}

// What is known of a number that is among the remembered queries: how many were remembered after it, who asked, and how
// many hits of it were passed back or delivered.
#[derive(Clone, Copy)]
pub struct Remembered {
    pub after: usize,
    pub asker: u8,
    pub hits: u8,
}

// The same with a field that says whether the number is among the remembered queries: the form in which the rules read
// it.
#[repr(C)]
#[derive(Clone, Copy)]
pub struct Lookup {
    pub found: bool,
    pub after: usize,
    pub asker: u8,
    pub hits: u8,
}

// What is known of a number, for a caller that has it in either form; `lookup` is the second, which the rules read.
pub trait Known: Copy {
    ghost use Rattle.protocol.specs.declared.Lookup.{Lookup};

    ghost lookup: { Self → Lookup };

    fn remembered(self) -> Option<Remembered>
        ensures { result ≡ remembered_in (lookup self) };

    // The field `after` of the second form, where the number is not remembered too (0 of `None`): what a repeat hands up
    // and where a hit is counted is promised by that field alone.
    fn after(self) -> usize
        ensures { result ≡ (lookup self).after };
}

impl Known for Option<Remembered> {
    ghost lookup = { lookup_in };

    fn remembered(self) -> Option<Remembered> {
        self // in this form already
    }

    fn after(self) -> usize {
        self.map_or(0, |query| query.after)
    }
}

impl Known for Lookup {
    ghost lookup = { λ known. known };

    fn remembered(self) -> Option<Remembered> {
        let Lookup {
            found,
            after,
            asker,
            hits,
        } = self;
        found.then_some(Remembered { after, asker, hits })
    }

    fn after(self) -> usize {
        self.after
    }
}

// The age of a query: whether its number was looked up and found, and how many queries were remembered after it, which
// is 0 for the newest, and where there is no age.
#[repr(C)]
#[derive(Clone, Copy, Default)]
pub struct Age {
    pub known: bool,
    pub after: usize,
}

impl From<Option<usize>> for Age {
    ghost from_gives = { λ after age. age ≡ age_in after };

    fn from(after: Option<usize>) -> Age {
        match after {
            Some(after) => Age { known: true, after },
            None => Age::default(),
        }
    }
}

// What a caller is told of a look-up: the answer, who asked, and how many queries were remembered after it. Refused, it
// tells of nobody, and of none.
#[repr(C)]
#[derive(Clone, Copy)]
pub struct Finding {
    pub answer: u8,
    pub asker: u8,
    pub after: usize,
}

impl From<Result<Remembered, Refusal>> for Finding {
    ghost from_gives = { λ outcome finding. finding ≡ finding_in outcome };

    fn from(outcome: Result<Remembered, Refusal>) -> Finding {
        match outcome {
            Ok(query) => Finding {
                answer: 0,
                asker: query.asker,
                after: query.after,
            },
            Err(refusal) => Finding {
                answer: u8::from(refusal),
                asker: NOBODY,
                after: 0,
            },
        }
    }
}

// What a caller is told of a message or an own query: the answer, the bytes it used of the message and wrote to the
// output area, the lines to send those to, whether a query is offered to the local search (with its text's place and
// length in the message), whether a hit is delivered here, and the age of the query that a hit answers or a query
// repeats, where that was found.
#[repr(C)]
#[derive(Clone, Copy, Default)]
pub struct Report {
    pub answer: u8,
    pub used: usize,
    pub written: usize,
    pub to: [bool; 8],
    pub search: bool,
    pub delivered: bool,
    pub textat: usize,
    pub textlen: usize,
    pub age: Age,
}
