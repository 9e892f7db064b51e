// A row for each line of the input: its first word says which kind.
use crate::{calls, keyword, lists, pairs, print, sessions, updates};
use rows::words;
use std::io;

// Room for the input, and for the bytes of a row.
pub(crate) const ROOM: usize = 98304;

// Room for what is written, which is a session's text at the longest.
const TEXT_ROOM: usize = 118784;

// The kinds of rows, by the words that they begin with.
#[derive(Clone, Copy, Debug, PartialEq, Eq)]
enum Kind {
    Place,
    Keywords,
    Casehash,
    Update,
    Withheld,
    Table,
    Run,
    Group,
    Field,
    Try,
    Written,
    Case,
    Session,
    File,
    Calls,
    Order,
    Look,
    Names,
    Relay,
}

impl Kind {
    // The kind that a word names, if it names one.
    fn named(word: &[u8]) -> Option<Kind> {
        match word {
            b"place" => Some(Kind::Place),
            b"keywords" => Some(Kind::Keywords),
            b"casehash" => Some(Kind::Casehash),
            b"update" => Some(Kind::Update),
            b"withheld" => Some(Kind::Withheld),
            b"table" => Some(Kind::Table),
            b"run" => Some(Kind::Run),
            b"group" => Some(Kind::Group),
            b"field" => Some(Kind::Field),
            b"try" => Some(Kind::Try),
            b"written" => Some(Kind::Written),
            b"case" => Some(Kind::Case),
            b"session" => Some(Kind::Session),
            b"file" => Some(Kind::File),
            b"calls" => Some(Kind::Calls),
            b"order" => Some(Kind::Order),
            b"look" => Some(Kind::Look),
            b"names" => Some(Kind::Names),
            b"relay" => Some(Kind::Relay),
            _ => None,
        }
    }

    // How many words of the line a row begins with: its kind, its label, and words that are shown again.
    fn shown(self) -> usize {
        match self {
            Kind::Place | Kind::Field => 3,
            Kind::Withheld | Kind::Run => 4,
            _ => 2,
        }
    }

    // How many words of the line stand before the values.
    fn skipped(self) -> usize {
        match self {
            Kind::Place | Kind::Keywords => 1,
            Kind::Run => 4,
            _ => 2,
        }
    }
}

// Where the first n words of the line end, of which there is one at least.
fn end_of(line: &[u8], n: usize) -> usize {
    let mut end = words::find(line, 0, b' ');
    for _ in 1..n {
        if end < line.len() {
            end = words::find(line, end + 1, b' ');
        }
    }
    end
}

// What a row begins with: its kind, which is `case` for `casehash` and `session` for `file`, its label, and words that
// are shown again.
fn head(rt: &impl Print, kind: Kind, line: &[u8]) -> io::Result<()> {
    let one = end_of(line, 1);
    match kind {
        Kind::Casehash => rt.write_all(b"case")?,
        Kind::File => rt.write_all(b"session")?,
        _ => rt.write_all(words::part(line, 0, one))?,
    }
    rt.write_all(words::part(line, one, end_of(line, kind.shown())))
}

fn values(rt: &impl Print, kind: Kind, label: &[u8], row: &[u8], out: &mut [u8]) -> io::Result<()> {
    match kind {
        Kind::Place => keyword::place(rt, rows::word(row, 0, 1), rows::number(row, 0, 0)),
        Kind::Keywords => keyword::cuts(rt, rows::word(row, 0, 0)),
        Kind::Casehash => keyword::place(rt, rows::word(row, 0, 0), 13),
        Kind::Update => updates::update(rt, row),
        Kind::Withheld => updates::withheld(rt, row),
        Kind::Table => updates::table(rt, row, out),
        Kind::Run => updates::run(rt, row, out),
        Kind::Group => pairs::group(rt, row),
        Kind::Field => pairs::field(rt, row, out),
        Kind::Try => pairs::try_hosts(rt, row),
        Kind::Written => pairs::written(rt, row, out),
        Kind::Case => calls::case(rt, row, out),
        Kind::Session => sessions::values(rt, label, row, out),
        Kind::File => sessions::values(rt, label, rows::word(row, 0, 0), out),
        Kind::Calls => calls::calls(rt, row, out),
        Kind::Order => calls::order(rt, row, out),
        Kind::Look => calls::look(rt, row, out),
        Kind::Names => lists::values(rt, row),
        Kind::Relay => calls::relay(rt, row, out),
    }
}

fn row(rt: &impl Print, kind: Kind, line: &[u8]) -> io::Result<()> {
    let mut area = [0u8; ROOM];
    let mut out = [0u8; TEXT_ROOM];
    head(rt, kind, line)?;
    let text = words::part(line, end_of(line, kind.skipped()), line.len());
    let n = rows::read(text, &mut area);
    let label = words::part(line, end_of(line, 1), end_of(line, 2));
    values(rt, kind, label, words::part(&area, 0, n), &mut out)?;
    print::mark(rt, b'\n')
}

// A line of no kind is shown, unless it is empty or begins with `#`.
fn unread(rt: &impl Print, line: &[u8]) -> io::Result<()> {
    if line.is_empty() || line.starts_with(b"#") {
        return Ok(());
    }
    rt.write_all(b"unread ")?;
    rt.write_all(line)?;
    print::mark(rt, b'\n')
}

fn one(rt: &impl Print, line: &[u8]) -> io::Result<()> {
    match Kind::named(words::part(line, 0, end_of(line, 1))) {
        Some(kind) => row(rt, kind, line),
        None => unread(rt, line),
    }
}

// The lines of a text, each with the newline behind it, if it has one.
pub(crate) fn all(rt: &impl Print, input: &[u8]) -> io::Result<()> {
    for line in input.split_inclusive(|b| *b == b'\n') {
        one(rt, line.strip_suffix(b"\n").unwrap_or(line))?;
    }
    Ok(())
}
