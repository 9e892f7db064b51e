// The first keyword of a text.
ghost use Rattle.std.specs.Prelude.{◌+◌, ◌≡◌, ◌≤◌, ◌<◌, not, length, IfSome};
ghost use Rattle.laws.specs.Tests.{all};
ghost use Rattle.keywords.specs.Keywords.{within, is_separator, leading, matching, cut_of, cut_told, words_of, words_left};
ghost use Rattle.keywords.specs.Blocks.{Reaching};

use crate::words::Keywords;
use ascii::front;

// How many bytes of a text are looked at byte by byte, and how many at once behind them.
const NEAR: usize = 32;

const BLOCK: usize = 16;

// Where a keyword starts, and where it ends, in the text that it was cut from.
#[repr(C)]
#[derive(Clone, Copy)]
pub struct Cut {
    pub start: usize,
    pub end: usize,
}

// A byte lies in a range, both ends of which belong to it.
fn within(b: u8, low: u8, high: u8) -> bool
    ensures { result ≡ within low high b }
{
    if b < low { false } else { b <= high }
}

// The one place that says which bytes part keywords: all but digits and letters.
pub fn is_separator(b: u8) -> bool
    ensures { result ≡ is_separator b }
{
    !(within(b, b'0', b'9') | (within(b, b'A', b'Z') | within(b, b'a', b'z')))
}

// How many bytes at the front are separators; or, where `wanted` is false, are not.
fn run(text: &[u8], wanted: bool) -> usize
    ensures { result ≡ leading (matching wanted) text.now }
{
    let mut i = 0;
    while i < text.len() {
        if is_separator(text[i]) != wanted {
            return i;
        }
        i += 1;
    }
    i
}

// Whether a block has a byte of the other kind than the one that is wanted. The loop has no way out, so that the
// compiler takes the bytes of a block all at once.
fn has_other(block: &[u8], wanted: bool) -> bool
    ensures { result ≡ not (all (matching wanted) block.now) }
{
    let mut other = false;
    let mut i = 0;
    while i < block.len() {
        other = other | (is_separator(block[i]) != wanted);
        i += 1;
    }
    other
}

// What `run` gives, by blocks: for a text with many bytes of one kind at its front.
fn long_run(text: &[u8], wanted: bool) -> usize
    ensures { result ≡ leading (matching wanted) text.now }
{
    let mut at = 0;
    let mut rest = text;
    while BLOCK <= rest.len() {
        if has_other(front(rest, BLOCK), wanted) {
            return at + run(rest, wanted);
        }
        at += BLOCK;
        rest = &rest[BLOCK..];
    }
    at + run(rest, wanted)
}

// The first keyword of a text whose first NEAR bytes do not have it whole: where it starts among them, at `start`, it
// goes on up to their end at least, and is followed from there; where they are separators all, so that `start` is
// NEAR, it is looked for. Both by blocks.
fn long_keyword(text: &[u8], start: usize) -> Cut
    requires { Reaching start text.now }
    ensures { result ≡ cut_of text.now }
{
    let begin = if start < NEAR {
        start
    } else {
        long_run(text, true)
    };
    let from = if start < NEAR { NEAR } else { begin };
    let more = long_run(&text[from..], false);
    Cut {
        start: begin,
        end: from + more,
    }
}

// The first keyword of a text, if it has one. A caller goes on behind `end`. Most keywords end soon, and are found byte
// by byte among the text's first bytes.
pub fn first_keyword(text: &[u8]) -> Option<Cut>
    ensures cut { cut_told text.now result ≡ cut_of text.now }
    ensures inside { IfSome result (λ cut. (cut.start < cut.end) × (cut.end ≤ length text.now)) }
{
    let near = front(text, NEAR);
    let start = run(near, true);
    let size = run(&near[start..], false);
    let cut = if start + size < NEAR {
        Cut {
            start,
            end: start + size,
        }
    } else {
        long_keyword(text, start)
    };
    (cut.start < cut.end).then_some(cut)
}

// The keywords of a text, in order: `for keyword in keywords(text)`.
pub fn keywords(text: &[u8]) -> Keywords<'_>
    ensures { words_left result ≡ words_of text.now }
{
    Keywords { rest: text }
}
