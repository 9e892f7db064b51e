// Whether each name lies in the text and may be listed, and whether no two have a byte in common, of areas with room
// for the pairs and at most 512 names. One pass goes over the numbers; where offsets rise, one pass over the text then
// tells of all names that they have no zero byte.
//
// What goes over pairs by name is inlined into `tested` of search.rt, where the count is known to be 512 at most, so
// that no pair is read with a test of its place. Left to the compiler, that test stays in the innermost loop, and 512
// names whose offsets do not rise take 1.7 to 2 times as long.
ghost use Rattle.std.specs.Prelude.{◌≡◌, not, ◌+◌, ◌-◌, ◌≤◌, ◌<◌, eqb, length, drop};
ghost use Rattle.laws.specs.Tests.{any, all};
ghost use Rattle.namearea.specs.Area.{most_names, text_from, span_at, spans_of, end_of};
ghost use Rattle.namearea.specs.Good.{listable, apart, pairwise};
ghost use Rattle.names.specs.Order.{placed, fits, number_of, order_of, dense, along};

use ascii::{after, front};
use namearea::{LONGEST_NAME, Span, TEXT_FROM, end_of, is_listable, no_zero, pair_at, span_at};

// A pair of an area of n bytes lies in the text, and its name is as long as a name may be.
#[tactic(auto, unfolding(crate::specs::Order::fits))]
fn is_fit(n: usize, s: Span) -> bool
    ensures { result ≡ fits n s }
{
    TEXT_FROM <= s.offset as usize
        && end_of(s) <= n
        && 1 <= s.size
        && s.size as usize <= LONGEST_NAME
}

// An area that has room for the pairs, and how many names of it are meant, the first ones.
#[derive(Clone, Copy)]
pub(crate) struct List<'a> {
    pub(crate) area: &'a [u8],
    pub(crate) count: usize,
    ghost roomy: { text_from ≤ length area.now },
    ghost few: { count ≤ most_names },
}

// What the numbers of the pairs tell: one of them does not fit, all do, or all do and their offsets rise.
#[derive(Clone, Copy)]
enum Order {
    Unfit = 0,
    Fit = 1,
    Rising = 2,
}

// The order of the pairs.
fn order_of(list: List) -> Order
    ensures { number_of result ≡ order_of (length list.entry.area.now) (spans_of list.entry.count list.entry.area.now) }
{
    let mut rising = true;
    let mut low = 0;
    for i in 0..list.count {
        let s = pair_at(list.area, i);
        if !is_fit(list.area.len(), s) {
            return Order::Unfit;
        }
        rising &= low <= s.offset as usize;
        low = end_of(s);
    }
    if rising { Order::Rising } else { Order::Fit }
}

// How far it is from where one name begins to where another ends; 0 where that is not behind it.
fn stretch(first: Span, last: Span) -> usize
    ensures { result ≡ end_of last - first.offset }
{
    end_of(last).saturating_sub(first.offset as usize)
}

// The first of the names and the last are no farther from each other than 256 bytes a name.
fn is_dense(list: List) -> bool
    requires { 0 < list.count }
    ensures { result ≡ dense list.entry.count list.entry.area.now }
{
    stretch(span_at(list.area, 0), span_at(list.area, list.count - 1)) / 256 <= list.count
}

// No byte is zero from where the first of the names begins to where the last ends.
fn no_zero_along(list: List) -> bool
    requires { 0 < list.count }
    ensures { result ≡ not (any (eqb 0) (along list.entry.count list.entry.area.now)) }
{
    let first = span_at(list.area, 0);
    let last = span_at(list.area, list.count - 1);
    no_zero(after(front(list.area, end_of(last)), first.offset as usize))
}

// Each of the names lies in the text and may be listed.
#[inline(always)]
fn all_listable(list: List) -> bool
    ensures { result ≡ all (listable list.entry.area.now) (spans_of list.entry.count list.entry.area.now) }
{
    for i in 0..list.count {
        if !is_listable(list.area, pair_at(list.area, i)) {
            return false;
        }
    }
    true
}

// Two names have no byte in common.
fn are_apart(s: Span, t: Span) -> bool
    ensures { result ≡ apart s t }
{
    end_of(s) <= t.offset as usize || end_of(t) <= s.offset as usize
}

// Pair i has no byte in common with a pair behind it.
#[inline(always)]
fn apart_behind(list: List, i: usize) -> bool
    requires { i < list.count }
    ensures { let a = list.entry.area.now in
        result ≡ all (apart (span_at a i)) (drop (i + 1) (spans_of list.entry.count a)) }
{
    let s = pair_at(list.area, i);
    for k in i + 1..list.count {
        if !are_apart(s, pair_at(list.area, k)) {
            return false;
        }
    }
    true
}

// No two of the names have a byte in common, pair by pair.
#[inline(always)]
fn all_apart(list: List) -> bool
    ensures { result ≡ pairwise apart (spans_of list.entry.count list.entry.area.now) }
{
    for i in 0..list.count {
        if !apart_behind(list, i) {
            return false;
        }
    }
    true
}

// Each of the names lies in the text and may be listed, and no two have a byte in common: name by name.
#[inline(always)]
fn placed_by_name(list: List) -> bool
    ensures { result ≡ placed list.entry.count list.entry.area.now }
{
    all_listable(list) && all_apart(list)
}

// The same. Where offsets rise, no two names have a byte in common, and a text without a zero byte has no name with
// one; a zero byte may yet stand in a gap, and wide gaps are not gone through.
#[inline(always)]
pub(crate) fn all_placed(list: List) -> bool
    ensures { result ≡ placed list.entry.count list.entry.area.now }
{
    if list.count == 0 {
        return true;
    }
    match order_of(list) {
        Order::Unfit => false,
        Order::Fit => placed_by_name(list),
        Order::Rising => { is_dense(list) && no_zero_along(list) || all_listable(list) }
    }
}
