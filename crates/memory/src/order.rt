// Whether the remembered queries are in order: no number twice, every asker an open line, here or gone, and no count of
// hits over 200.
ghost use Rattle.std.specs.Prelude.{◌≡◌, true, false, length, get_or};
ghost use Rattle.protocol.specs.Memory.{capacity, memory_of, number_from, queries_in, find, lookup_of, lookup_in, memory_in_order};
ghost use Rattle.memory.specs.Order.{Passed};

use crate::Survey;
use crate::askers::askers_fit;
use crate::hits::hits_fit;
use crate::numbers::no_twice;
use crate::search::find;

// Where they are in order, the filter has the numbers of all.
fn in_order<'a>(
    lo: &'a [u64],
    hi: &'a [u64],
    asker: &'a [u8],
    hits: &'a [u8],
    count: usize,
    next: usize,
    live: [bool; 8],
    filter: &mut [u64; 1024],
) -> bool
    requires { (length asker.now ≡ length lo.now) × (length hits.now ≡ length lo.now)
        × (length filter.old ≡ 1024) }
    ensures result_value { let ring = memory_of lo.now hi.now asker.now hits.now count next in
        result ≡ memory_in_order (length lo.now) (λ k. get_or live k false) ring }
    ensures fact { let ring = memory_of lo.now hi.now asker.now hits.now count next in
        (result ≡ true → Passed filter.new (queries_in (length lo.now) ring)) }
{
    let fits = (count <= lo.len()) & (next < lo.len());
    fits && askers_fit(asker, count, next, live)
        && hits_fit(hits, count, next)
        && no_twice(lo, hi, asker, hits, count, next, filter)
}

// The test of order and the look-up of the number (low, high) at once: the filter that the test fills rules out
// nearly every new number. `live` says which lines are open.
pub fn survey<'a>(
    lo: &'a [u64; 512],
    hi: &'a [u64; 512],
    asker: &'a [u8; 512],
    hits: &'a [u8; 512],
    count: usize,
    next: usize,
    live: [bool; 8],
    low: u64,
    high: u64,
) -> Survey
    ensures order { let before = memory_of lo.now hi.now asker.now
        hits.now count next in
        result.order ≡ memory_in_order capacity (λ k. get_or live k false) before }
    ensures known { let before = memory_of lo.now hi.now asker.now
        hits.now count next in
        lookup_in result.known ≡ lookup_of (find (queries_in capacity before) (number_from low high)) }
{
    let mut filter = [0; 1024];
    let order = in_order(lo, hi, asker, hits, count, next, live, &mut filter);
    let h = (low % 1024) as usize;
    let word = filter[h];
    let known = if order && word | low != word {
        None
    } else {
        find(lo, hi, asker, hits, count, next, low, high)
    };
    Survey { order, known }
}
