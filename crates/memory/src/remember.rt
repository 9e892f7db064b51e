// The ring of a station, written: one query more is remembered, a query has had one hit more, and none is remembered.
ghost use Rattle.std.specs.Prelude.{◌+◌, min, ◌≡◌, cond};
ghost use Rattle.laws.specs.Ring.{ring_place};
ghost use Rattle.protocol.specs.Memory.{capacity, memory_of, number_from, remember_if, raised};
ghost use Rattle.protocol.specs.Calls.{fresh_memory};

use protocol::{CAPACITY, HITS, Known};

// The query with the number (low, high) is remembered, if it was taken; the oldest of 512 makes way.
pub fn remember(
    lo: &mut [u64; 512],
    hi: &mut [u64; 512],
    asker: &mut [u8; 512],
    hits: &mut [u8; 512],
    count: &mut usize,
    next: &mut usize,
    taken: bool,
    low: u64,
    high: u64,
    who: u8,
)
    ensures { let before = memory_of lo.old hi.old asker.old hits.old
        count.old next.old in
        let after = memory_of lo.new hi.new asker.new hits.new
        count.new next.new in
        after ≡ remember_if taken capacity before (number_from low high) who }
{
    if taken {
        let p = *next % CAPACITY;
        lo[p] = low;
        hi[p] = high;
        asker[p] = who;
        hits[p] = 0;
        *count = CAPACITY.min(count.saturating_add(1));
        *next = (p + 1) % CAPACITY;
    }
}

// The place of the query behind `after` newer ones.
fn place_behind(next: usize, after: usize) -> usize
    ensures { result ≡ ring_place capacity next after }
{
    if after < CAPACITY {
        (next % CAPACITY + (CAPACITY - 1 - after)) % CAPACITY
    } else {
        next % CAPACITY
    }
}

// The query that is known has had one hit more, if one was passed back or delivered.
pub fn raise<K: Known>(hits: &mut [u8; 512], next: usize, known: K, answered: bool)
    ensures { let before = hits.old in
        hits.new ≡ cond answered (raised capacity next (K.lookup known).after before) before }
{
    if answered {
        let p = place_behind(next, known.after());
        hits[p] = HITS.min(hits[p].saturating_add(1));
    }
}

// The ring of a fresh station, which remembers nothing.
pub fn fresh(
    lo: &mut [u64; 512],
    hi: &mut [u64; 512],
    asker: &mut [u8; 512],
    hits: &mut [u8; 512],
    count: &mut usize,
    next: &mut usize,
)
    ensures { memory_of lo.new hi.new asker.new hits.new
        count.new next.new ≡ fresh_memory }
{
    *lo = [0; 512];
    *hi = [0; 512];
    *asker = [0; 512];
    *hits = [0; 512];
    *count = 0;
    *next = 0;
}
