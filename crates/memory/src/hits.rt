// Whether every remembered query has had at most 200 hits. The test passes over bytes without a way out, so that many
// bytes are tested at a time.
ghost use Rattle.std.specs.Prelude.{ℕ, ◌<◌, ◌≤◌, ◌≡◌, Bool, length, get_or};
ghost use Rattle.laws.specs.Ring.{places_before};
ghost use Rattle.laws.specs.Tests.{all};
ghost use Rattle.protocol.specs.Memory.{hits_fit};

use protocol::HITS;

fn part_fits(part: &[u8]) -> bool
    ensures { result ≡ all hits_fit part.now }
{
    let mut good = true;
    for n in part {
        good = good & (*n <= HITS);
    }
    good
}

pub(crate) fn hits_fit(hits: &[u8], count: usize, next: usize) -> bool
    requires { (next < length hits.now) × (count ≤ length hits.now) }
    ensures { let fits : ℕ → Bool = λ p. hits_fit (get_or hits.now p 0) in
        result ≡ all fits (places_before (length hits.now) next count) }
{
    let first = count.min(next);
    let from = next - first;
    let end = hits.len() - (count - first);
    part_fits(&hits[from..next]) & part_fits(&hits[end..])
}
