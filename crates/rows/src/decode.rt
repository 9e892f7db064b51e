// A word that stands for bytes: text in which `_` is a space, `|` CR and LF, `^` a CR, `~` an LF, `>` a tab;
// hexadecimal between two `\`; `*N*`, the byte before it N times in all; and `%`, the length in four bytes of what
// follows it. The word `-` is no byte.
ghost use Rattle.std.specs.Prelude.{◌<◌};

use crate::words::put;

fn fill(area: &mut [u8], at: usize, b: u8, times: u32) -> usize {
    let mut next = at;
    for _ in 0..times {
        next = put(&mut *area, next, b);
    }
    next
}

// A number as four bytes, the lowest first, as far as the area has places for them.
pub(crate) fn put_number(area: &mut [u8], at: usize, n: usize) {
    let four = ((n % 4294967296) as u32).to_le_bytes();
    if at < area.len() {
        wire::copy_onto(&four, &mut area[at..]);
    }
}

fn digit(b: u8) -> u8
    ensures { result < 16 }
{
    if b < 58 { b % 16 } else { (b % 8 + 9) % 16 }
}

// Where reading stands behind a byte: in text, in hexadecimal, behind the first digit of a byte, or behind a `*` and the
// digits that follow it.
#[derive(Clone, Copy)]
enum State {
    Text,
    Hexadecimal,
    Digit(u8),
    Times(u32),
}

impl State {
    fn after(self, b: u8) -> State {
        match self {
            State::Text => match b {
                b'\\' => State::Hexadecimal,
                b'*' => State::Times(0),
                _ => State::Text,
            },
            State::Times(_) if b == b'*' => State::Text,
            State::Times(n) => State::Times(n % 100000 * 10 + u32::from(digit(b))),
            _ if b == b'\\' => State::Text,
            State::Hexadecimal => State::Digit(digit(b)),
            State::Digit(_) => State::Hexadecimal,
        }
    }
}

// A byte, and how many times it is put.
#[derive(Clone, Copy)]
struct Run {
    byte: u8,
    times: u32,
}

impl Run {
    fn of(byte: u8, times: u32) -> Run {
        Run { byte, times }
    }

    // What a letter of a text puts.
    fn letter(last: u8, b: u8) -> Run {
        match b {
            b'_' => Run::of(b' ', 1),
            b'^' => Run::of(b'\r', 1),
            b'~' | b'|' => Run::of(b'\n', 1),
            b'>' => Run::of(b'\t', 1),
            b'%' => Run::of(0, 4),
            b'\\' | b'*' => Run::of(last, 0),
            _ => Run::of(b, 1),
        }
    }

    // What a byte of the word puts, after the last byte put.
    fn new(state: State, last: u8, b: u8) -> Run {
        match state {
            State::Text => Run::letter(last, b),
            State::Times(n) if b == b'*' && n > 0 => Run::of(last, (n - 1) % 1048576),
            State::Digit(high) => Run::of(high % 16 * 16 + digit(b), 1),
            _ => Run::of(last, 0),
        }
    }
}

// The length of the bytes from `body` on, in the four before them.
fn put_length(area: &mut [u8], body: usize, end: usize) {
    if 4 <= body && body <= end {
        put_number(area, body - 4, end - body);
    }
}

// The bytes of a word, from place `at` of the area on; where they end. A CR comes before the LF that `|` puts.
fn text(word: &[u8], area: &mut [u8], at: usize) -> usize {
    let mut next = at;
    let mut body = None;
    let mut state = State::Text;
    let mut last = 0;
    for b in word {
        if matches!(state, State::Text) && *b == b'|' {
            next = put(&mut *area, next, b'\r');
        }
        let run = Run::new(state, last, *b);
        last = run.byte;
        next = fill(&mut *area, next, run.byte, run.times);
        if *b == b'%' {
            body = Some(next);
        }
        state = state.after(*b);
    }
    if let Some(body) = body {
        put_length(area, body, next);
    }
    next
}

pub(crate) fn bytes(word: &[u8], area: &mut [u8], at: usize) -> usize {
    if word == b"-".as_slice() {
        return at;
    }
    text(word, area, at)
}
