// Pairs written as text.
ghost use Rattle.std.specs.Prelude.{◌≡◌, ◌∷◌, ◌+◌, ◌≤◌, length};
ghost use Rattle.laws.specs.Parts.{Put};
ghost use Rattle.digits.specs.Decimal.{decimal};
ghost use Rattle.xtry.specs.Writing.{pair_text, pairs_in, can_write, led_size, led_over};

use crate::{Pair, Pairs};

// The most bytes that 32 pairs take, each with a byte in front of it: five numbers of at most five digits, and five
// bytes between them.
pub const MOST: usize = 960;

// The byte `lead` and a number in decimal.
fn put_number(out: &mut [u8], at: usize, lead: u8, n: u16) -> usize
    requires { at + 6 ≤ length out.old }
    ensures put { Put at (lead ∷ decimal n) out.old out.new result }
    ensures upper_bound { result ≤ at + 6 }
{
    let digits = digits::spell(n);
    let size = digits.size;
    let spelled = digits.bytes;
    out[at] = lead;
    let from = at + 1;
    out[from..from + size].copy_from_slice(&spelled[..size]);
    from + size
}

// The byte `lead` and a pair.
fn put_pair(out: &mut [u8], at: usize, lead: u8, p: Pair) -> usize
    requires { at + 30 ≤ length out.old }
    ensures put { Put at (lead ∷ pair_text p) out.old out.new result }
    ensures upper_bound { result ≤ at + 30 }
{
    let [a, b, c, d] = p.address;
    let i = put_number(out, at, lead, u16::from(a));
    let j = put_number(out, i, b'.', u16::from(b));
    let k = put_number(out, j, b'.', u16::from(c));
    let l = put_number(out, k, b'.', u16::from(d));
    put_number(out, l, b':', p.port)
}

// The pairs in use.
fn in_use(pairs: &Pairs) -> &[Pair]
    ensures value { result.now ≡ pairs_in pairs.now }
    ensures few { length result.now ≤ 32 }
{
    &pairs.pairs[..pairs.count.min(32)]
}

// At most 32 pairs, and each has a port.
#[tactic(auto, unfolding(crate::specs::Writing::can_write))]
pub fn can_write(pairs: Pairs) -> bool
    ensures { result ≡ can_write pairs }
{
    pairs.count <= 32 && in_use(&pairs).iter().all(|p| p.port != 0)
}

// The pairs at the front of an area, the first behind `first` and the others behind a comma. Answers how many bytes it
// wrote: none where the area has not room for the most that pairs can take.
pub fn write_pairs(pairs: Pairs, first: u8, out: &mut [u8]) -> usize
    ensures value { result ≡ led_size first pairs (length out.old) }
    ensures out_after { out.new ≡ led_over first pairs out.old }
    ensures upper_bound { result ≤ 960 }
{
    if out.len() < MOST {
        return 0;
    }
    let listed = in_use(&pairs);
    let mut to = 0;
    let mut lead = first;
    for p in listed {
        to = put_pair(out, to, lead, *p);
        lead = b',';
    }
    to
}
