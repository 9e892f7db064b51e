// The order of keywords.
ghost use Rattle.std.specs.Prelude.{◌≡◌, map};
ghost use Rattle.std.specs.Ordering.{nat_cmp};
ghost use Rattle.std.specs.Cmp.Lexicographic.{slice_cmp};
ghost use Rattle.ascii.specs.Text.{lower};

use std::cmp::Ordering;

// Letters count as in lower case, and the first bytes that differ decide. A keyword stands before every longer one that
// begins with it.
pub(crate) fn order(a: &[u8], b: &[u8]) -> Ordering
    ensures { result ≡ slice_cmp nat_cmp (map lower a.now) (map lower b.now) }
{
    // `cmp` of two mapped iterators takes twice as long
    for (x, y) in a.iter().zip(b) {
        let order = x.to_ascii_lowercase().cmp(&y.to_ascii_lowercase());
        if order != Ordering::Equal {
            return order;
        }
    }
    a.len().cmp(&b.len())
}
