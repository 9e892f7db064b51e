// Where a new text goes: behind the last, or, where there is no room, behind all the others once their gaps are
// closed.
ghost use Rattle.std.specs.Prelude.{◌+◌, ◌-◌, ◌≤◌, ◌<◌, ◌≡◌, true, length, unwrap_or, IfSome};
ghost use Rattle.namearea.specs.Area.{most_names, text_from, count_in, names_in, total};
ghost use Rattle.namelist.specs.Gaps.{Ends, Sum, Least, Rest, Next, Movable, MovedDown, Closed};
ghost use Rattle.namelist.specs.Moves.{GoodArea, Placed};

use crate::moves::{move_text, put_pair};
use namearea::{Span, TEXT_FROM, count_in, end_of, is_rising, pair_at};

// The largest offset that a pair can have.
const LARGEST_OFFSET: usize = 4294967295;

// Where the last text ends.
pub(crate) fn text_end(area: &[u8]) -> usize
    requires { GoodArea area.now }
    ensures { Ends area.now result }
{
    let mut end = TEXT_FROM;
    for i in 0..count_in(area) as usize {
        end = end.max(end_of(pair_at(area, i)));
    }
    end
}

// The names have so many bytes together.
pub(crate) fn total_size(area: &[u8]) -> usize
    requires { GoodArea area.now }
    ensures { Sum area.now result }
{
    let mut sum = 0;
    for i in 0..count_in(area) as usize {
        sum += pair_at(area, i).size as usize;
    }
    sum
}

// The pair with the least offset that is not below `from`.
fn least_from(area: &[u8], from: usize) -> Option<usize>
    requires { (text_from ≤ length area.now) × (count_in area.now ≤ most_names) }
    ensures which { Least area.now from (unwrap_or result (count_in area.now)) }
    ensures listed { IfSome result (λ k. k < count_in area.now) }
{
    let count = count_in(area) as usize;
    // `count` is none within the loop: with an Option there, row "offsets that fall" takes 1.35 times as long.
    let mut best = count;
    let mut least = LARGEST_OFFSET + 1;
    for k in 0..count {
        let offset = pair_at(area, k).offset as usize;
        if from <= offset && offset < least {
            best = k;
            least = offset;
        }
    }
    if best < count { Some(best) } else { None }
}

// The same, where i texts are already in their places; where offsets rise it is pair i.
fn next_text(area: &[u8], rising: bool, i: usize, from: usize) -> Option<usize>
    requires { (text_from ≤ length area.now)
        × (count_in area.now ≤ most_names)
        × (rising ≡ true → (i ≤ count_in area.now) × Rest area.now i from) }
    ensures which { Next area.now rising i from (unwrap_or result (count_in area.now)) }
    ensures listed { IfSome result (λ k. k < count_in area.now) }
{
    if !rising {
        return least_from(area, from);
    }
    if i < count_in(area) as usize {
        Some(i)
    } else {
        None
    }
}

// The text of pair k moved down to `to`, and the pair's offset with it; nothing is written where it stands there
// already. The pair as it was.
fn move_down(area: &mut [u8], k: usize, to: usize) -> Span
    requires { Movable area.old to k }
    ensures { MovedDown area.old to k result area.new }
{
    let s = pair_at(area, k);
    if s.offset as usize == to {
        return s;
    }
    move_text(area, to, s.offset as usize, s.size as usize);
    put_pair(
        area,
        k,
        Span {
            offset: to as u32,
            ..s
        },
    );
    s
}

// Closes the gaps: the texts in the order of their offsets, each moved down behind the one before it. Where they end
// then.
pub(crate) fn close_gaps(area: &mut [u8]) -> usize
    requires { GoodArea area.old }
    ensures { Closed area.old result area.new }
{
    let rising = is_rising(area, count_in(area) as usize);
    let mut to = TEXT_FROM;
    let mut from = TEXT_FROM;
    let mut i = 0;
    while let Some(k) = next_text(area, rising, i, from) {
        let s = move_down(area, k, to);
        to += s.size as usize;
        from = end_of(s);
        i += 1;
    }
    to
}

// Where n bytes more find room.
pub(crate) fn place_for(area: &mut [u8], n: usize) -> usize
    requires { GoodArea area.old × (total (names_in area.old) + n ≤ length area.old - text_from) }
    ensures { Placed area.old n result area.new }
{
    let end = text_end(area);
    if n <= area.len() - end && end <= LARGEST_OFFSET {
        return end;
    }
    close_gaps(area)
}
