// Looking a query's number up among the remembered ones, the newest first.
ghost use Rattle.std.specs.Prelude.{◌+◌, ◌<◌, ◌≤◌, ◌≡◌, length};
ghost use Rattle.protocol.specs.Memory.{memory_of, number_from, queries_in, find, lookup_of, lookup_in};
ghost use Rattle.memory.specs.Queries.{queries_before, behind};

use protocol::Remembered;

// The newest query with the number (a, b) among the n before place `from`, behind `passed` newer ones. One comparison
// passes over nearly every other query.
fn newest<'a>(
    lo: &'a [u64],
    hi: &'a [u64],
    asker: &'a [u8],
    hits: &'a [u8],
    from: usize,
    n: usize,
    passed: usize,
    a: u64,
    b: u64,
) -> Option<Remembered>
    requires { (n ≤ from) × (from ≤ length lo.now) × (passed + n < 18446744073709551616) }
    ensures { let ring = memory_of lo.now hi.now asker.now hits.now n from in
        lookup_in result ≡ lookup_of (behind passed (find (queries_before (length lo.now) ring) (number_from a b))) }
{
    for i in 0..n {
        let p = from - 1 - i;
        if lo[p] == a && hi.get(p).copied().unwrap_or(0) == b {
            return Some(Remembered {
                after: passed + i,
                asker: asker.get(p).copied().unwrap_or(0),
                hits: hits.get(p).copied().unwrap_or(0),
            });
        }
    }
    None
}

// What is remembered of the number (a, b).
pub fn find<'a>(
    lo: &'a [u64],
    hi: &'a [u64],
    asker: &'a [u8],
    hits: &'a [u8],
    count: usize,
    next: usize,
    a: u64,
    b: u64,
) -> Option<Remembered>
    ensures { let ring = memory_of lo.now hi.now asker.now hits.now count next in
        lookup_in result ≡ lookup_of (find (queries_in (length lo.now) ring) (number_from a b)) }
{
    let capacity = lo.len();
    let fits = (count <= capacity) & (next < capacity);
    if !fits {
        return None;
    }
    let first = count.min(next);
    match newest(lo, hi, asker, hits, next, first, 0, a, b) {
        Some(query) => Some(query),
        None => newest(lo, hi, asker, hits, capacity, count - first, first, a, b),
    }
}
