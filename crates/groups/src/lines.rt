// Where a group ends, and its lines.
ghost use Rattle.std.specs.Prelude.{◌≡◌, ◌≤◌, drop};
ghost use Rattle.groups.specs.Lines.{pair_at, ends_at, unless_zero, group_length, line_length, line_ends, line_at};

use ascii::{after, byte_at, front, is_text};

// CR and LF stand at place `at`.
fn pair_at(m: &[u8], at: usize) -> bool
    ensures { result ≡ pair_at m.now at }
{
    at < m.len() && m[at] == b'\r' && byte_at(m, at + 1) == b'\n'
}

// An empty line ends with byte n.
#[tactic(auto, unfolding(crate::specs::Lines::ends_at))]
fn ends_at(m: &[u8], n: usize) -> bool
    requires { 2 ≤ n }
    ensures { result ≡ ends_at m.now n }
{
    pair_at(m, n - 2) && (n == 2 || n >= 4 && pair_at(m, n - 4))
}

// How long the group is, with the empty line that ends it, where an end stands in the first 4,096 bytes. Behind a byte
// of text no end stands before the fourth byte, so that most bytes are passed by.
pub fn group_length(m: &[u8]) -> Option<usize>
    ensures { result ≡ unless_zero (group_length m.now) }
{
    let last = m.len().min(4096);
    let mut n = 2;
    while n <= last {
        if is_text(m[n - 1]) {
            n += 4;
        } else if ends_at(m, n) {
            return Some(n);
        } else {
            n += 1;
        }
    }
    None
}

// How many bytes stand before the first CR and LF.
fn line_length(s: &[u8]) -> usize
    ensures { result ≡ line_length s.now }
{
    for i in 0..s.len() {
        if pair_at(s, i) {
            return i;
        }
    }
    s.len()
}

// Nothing is left at place n, or CR and LF stand there.
pub fn line_ends(s: &[u8], n: usize) -> bool
    ensures { result ≡ line_ends (drop n s.now) }
{
    n >= s.len() || pair_at(s, n)
}

// The line that starts at a place, without its end.
pub fn line_at(s: &[u8], at: usize) -> &[u8]
    ensures { result.now ≡ line_at s.now at }
{
    let rest = after(s, at);
    front(rest, line_length(rest))
}
