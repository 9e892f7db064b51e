// Floor 2: the station's own names as they stand in a lent area: a count, 512 pairs of offset and length, and from byte
// 4,100 on the text. What is read here is read of any bytes. Nothing here knows of lines or tables.
#![tactic(auto)]

ghost use Rattle.std.specs.Prelude.{◌≡◌, not, ◌*◌, eqb, drop};
ghost use Rattle.laws.specs.Tests.{any};
ghost use Rattle.namearea.specs.Area.{count_in, span_in, span_at, pair_in, spans_of, end_of, name_of};
ghost use Rattle.namearea.specs.Good.{good_name, listable, rising_from};
ghost use Rattle.namearea.specs.Calls.{found_of};

use answer::Refusal;
use ascii::{after, front};
use wire::little4;

// Where the text begins.
pub const TEXT_FROM: usize = 4100;

// How many names an area can list, and how many bytes a name may have.
pub const MOST_NAMES: usize = 512;

pub const LONGEST_NAME: usize = 255;

// Where a name stands, from the area's start, and how many bytes it has.
#[derive(Clone, Copy, Default)]
pub struct Span {
    pub offset: u32,
    pub size: u32,
}

// What a find tells: its answer, and the name's place in the list, from 0; 0 where it is refused.
#[repr(C)]
#[derive(Clone, Copy)]
pub struct Found {
    pub answer: u8,
    pub place: usize,
}

impl From<Result<usize, Refusal>> for Found {
    ghost from_gives = { λ outcome found. found ≡ found_of outcome };

    fn from(outcome: Result<usize, Refusal>) -> Found {
        match outcome {
            Ok(place) => Found { answer: 0, place },
            Err(refusal) => Found {
                answer: u8::from(refusal),
                place: 0,
            },
        }
    }
}

// How many names are listed.
pub fn count_in(area: &[u8]) -> u32
    ensures { result ≡ count_in area.now }
{
    little4(area)
}

// The pair that some bytes begin with.
pub fn span_in(part: &[u8]) -> Span
    ensures { result ≡ span_in part.now }
{
    Span {
        offset: little4(part),
        size: little4(after(part, 4)),
    }
}

// Pair i of some bytes, which may end within it or before it: a byte that is not there counts 0.
fn span_up_to(pairs: &[u8], i: usize) -> Span
    ensures { result ≡ span_in (drop (8 * i) pairs.now) }
{
    if pairs.len() / 8 < i {
        return Span::default();
    }
    span_in(&pairs[8 * i..])
}

// Pair i. Where all eight bytes are there, it is read of a part of just that length: one load.
pub fn span_at(area: &[u8], i: usize) -> Span
    ensures { result ≡ span_at area.now i }
{
    if area.len() < 4 {
        return Span::default();
    }
    let pairs = &area[4..];
    if pairs.len() / 8 <= i {
        return span_up_to(pairs, i);
    }
    let at = 8 * i;
    span_in(&pairs[at..at + 8])
}

// Pair i of an area that has room for the pairs: one load. No pair where it has no room for them, or i is past them.
pub fn pair_at(area: &[u8], i: usize) -> Span
    ensures { result ≡ pair_in area.now i }
{
    if area.len() < TEXT_FROM || MOST_NAMES <= i {
        return Span::default();
    }
    let at = 4 + 8 * i;
    span_in(&area[at..at + 8])
}

// Where a name ends.
pub fn end_of(s: Span) -> usize
    ensures { result ≡ end_of s }
{
    (s.offset as usize) + (s.size as usize)
}

// The name that a pair tells of.
pub fn name_of(area: &[u8], s: Span) -> &[u8]
    ensures { result.now ≡ name_of area.now s }
{
    front(after(area, s.offset as usize), s.size as usize)
}

// No byte is zero. No way out before the end: with the slice's `contains` row "name absent" takes 1.22 times as long.
pub fn no_zero(name: &[u8]) -> bool
    ensures { result ≡ not (any (eqb 0) name.now) }
{
    let mut good = true;
    for b in name {
        good &= *b != 0;
    }
    good
}

// A name that may be listed.
#[tactic(auto, unfolding(crate::specs::Good::good_name))]
pub fn good_name(name: &[u8]) -> bool
    ensures { result ≡ good_name name.now }
{
    (1..=LONGEST_NAME).contains(&name.len()) && no_zero(name)
}

// The pair lies in the text, and its name may be listed.
#[tactic(auto, unfolding(crate::specs::Good::listable))]
pub fn is_listable(area: &[u8], s: Span) -> bool
    ensures { result ≡ listable area.now s }
{
    TEXT_FROM <= s.offset as usize && end_of(s) <= area.len() && good_name(name_of(area, s))
}

// The offsets of the first `count` names rise, so that no two of them have a byte in common.
pub fn is_rising(area: &[u8], count: usize) -> bool
    ensures { result ≡ rising_from 0 (spans_of count area.now) }
{
    let mut low = 0;
    for i in 0..count {
        let s = span_at(area, i);
        if (s.offset as usize) < low {
            return false;
        }
        low = end_of(s);
    }
    true
}
