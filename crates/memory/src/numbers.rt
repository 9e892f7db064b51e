// Whether no number stands twice among the remembered queries, in one pass over them.
ghost use Rattle.std.specs.Prelude.{◌+◌, ◌-◌, ◌<◌, ◌≤◌, ◌≡◌, length};
ghost use Rattle.protocol.specs.Memory.{memory_of};
ghost use Rattle.memory.specs.Queries.{queries_before};
ghost use Rattle.memory.specs.Order.{Passed, Filled, Tested};

use crate::search::find;

// A word of the filter joins the first halves passed that agree in their lowest ten bits: a number with a bit that
// its word lacks was not passed. From place `from` on such numbers are put in. The place of the first other one, or
// `to`.
fn fill(lo: &[u64], from: usize, to: usize, filter: &mut [u64; 1024]) -> usize
    requires { (from ≤ to) × (to ≤ length lo.now) × (length filter.old ≡ 1024) }
    ensures { Filled lo.now from to result filter.old filter.new }
{
    for p in from..to {
        let a = lo[p];
        let h = (a % 1024) as usize;
        let word = filter[h];
        let more = word | a;
        if more == word {
            return p;
        }
        filter[h] = more;
    }
    to
}

// The queries at the places `from` to `to`, behind `passed` older ones. Only a number that the filter does not tell
// from those passed is looked up among them.
fn no_twice_in<'a>(
    lo: &'a [u64],
    hi: &'a [u64],
    asker: &'a [u8],
    hits: &'a [u8],
    from: usize,
    to: usize,
    passed: usize,
    filter: &mut [u64; 1024],
) -> bool
    requires from_le_to { (from ≤ to) × (to ≤ length lo.now) × (passed + (to - from) ≤ length lo.now) }
    requires passed { Passed filter.old
        (queries_before (length lo.now) (memory_of lo.now hi.now asker.now hits.now passed from)) }
    ensures { let ring = memory_of lo.now hi.now asker.now hits.now
        (passed + (to - from)) to in
        Tested result filter.new (queries_before (length lo.now) ring) }
{
    let mut p = fill(lo, from, to, filter);
    while p < to {
        let high = hi.get(p).copied().unwrap_or(0);
        if find(lo, hi, asker, hits, passed + (p - from), p, lo[p], high).is_some() {
            return false;
        }
        p = fill(lo, p + 1, to, filter);
    }
    true
}

// The oldest queries are those at the end of the slices. The filter is handed in empty: bits that no number brought
// only cost look-ups.
pub(crate) fn no_twice<'a>(
    lo: &'a [u64],
    hi: &'a [u64],
    asker: &'a [u8],
    hits: &'a [u8],
    count: usize,
    next: usize,
    filter: &mut [u64; 1024],
) -> bool
    requires { (next < length lo.now) × (count ≤ length lo.now) × (length filter.old ≡ 1024) }
    ensures { let ring = memory_of lo.now hi.now asker.now hits.now count next in
        Tested result filter.new (queries_before (length lo.now) ring) }
{
    let first = count.min(next);
    let rest = count - first;
    let capacity = lo.len();
    no_twice_in(lo, hi, asker, hits, capacity - rest, capacity, 0, filter)
        && no_twice_in(lo, hi, asker, hits, next - first, next, rest, filter)
}
