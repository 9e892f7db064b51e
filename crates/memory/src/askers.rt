// Whether every remembered query's asker is an open line, here or gone. The tests pass over bytes without a way out,
// so that many bytes are tested at a time.
ghost use Rattle.std.specs.Prelude.{ℕ, ◌<◌, ◌≤◌, ◌≡◌, Bool, false, length, get_or};
ghost use Rattle.laws.specs.Ring.{places_before};
ghost use Rattle.laws.specs.Tests.{all};
ghost use Rattle.protocol.specs.Memory.{asker_fits};
ghost use Rattle.memory.specs.Order.{fits_beside};

use protocol::{GONE, NOBODY};

// Are the askers of the part lines, here or gone, and none of them this line?
fn all_fit_beside(part: &[u8], line: u8) -> bool
    ensures { result ≡ all (fits_beside line) part.now }
{
    let mut good = true;
    for a in part {
        good = good & ((*a <= GONE) & (*a != line));
    }
    good
}

// One pass for each closed line, and one before them for nobody, who is no line.
fn part_fits(part: &[u8], live: [bool; 8]) -> bool
    ensures { result ≡ all (asker_fits (λ k. get_or live k false)) part.now }
{
    let mut good = all_fit_beside(part, NOBODY);
    for k in 0..8 {
        if !live[k] {
            good = good & all_fit_beside(part, k as u8);
        }
    }
    good
}

pub(crate) fn askers_fit(asker: &[u8], count: usize, next: usize, live: [bool; 8]) -> bool
    requires { (next < length asker.now) × (count ≤ length asker.now) }
    ensures { let fits : ℕ → Bool = λ p. asker_fits (λ k. get_or live k false) (get_or asker.now p 0) in
        result ≡ all fits (places_before (length asker.now) next count) }
{
    let first = count.min(next);
    let from = next - first;
    let end = asker.len() - (count - first);
    part_fits(&asker[from..next], live) & part_fits(&asker[end..], live)
}
