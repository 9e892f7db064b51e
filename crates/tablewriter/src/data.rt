// The data of a run, byte by byte: the differences of the entries as two's complement numbers.
ghost use Rattle.std.specs.Prelude.{◌≡◌, true, ◌+◌, ◌-◌, ◌*◌, ◌%◌, ◌≤◌, ◌<◌, length, get_or, take, drop};
ghost use Rattle.laws.specs.Parts.{over};
ghost use Rattle.tablemessages.specs.Writer.{all_near};
ghost use Rattle.tablemessages.specs.Steps.{Sound, raw_in, pair_of, pair_in, base_by, data_by, data_length};

use crate::good::base_at;
use tablemessages::Plan;

// How many bytes of data n entries take.
pub(crate) fn data_length(small: bool, n: usize) -> usize
    ensures { result ≡ data_length small n }
{
    if small { n / 2 } else { n }
}

// The difference e - b in 8 bits.
fn difference(e: u8, b: u8) -> u8
    ensures { result ≡ raw_in 256 e b }
{
    e.wrapping_sub(b)
}

// Entries i and i + 1 as one number, the first in its low byte: they are read at once.
fn pair_at(entries: &[u8], i: usize) -> u32
    requires { i + 1 < length entries.now }
    ensures { result ≡ pair_of entries.now i }
{
    u32::from(entries[i]) + 256 * u32::from(entries[i + 1])
}

// What the differences of entries i and i + 1 are taken from, as one number.
fn base_pair<'a>(plan: Plan, old: &'a [u8], new: &'a [u8], i: usize) -> u32
    requires { (length (base_by plan old.now new.now) ≡ length new.now) × (i + 1 < length new.now) }
    ensures { (result ≡ pair_of (base_by plan old.now new.now) i)
        × (get_or (base_by plan old.now new.now) i 0 < 256) }
{
    if plan.had {
        return pair_at(old, i);
    }
    u32::from(plan.infinity) + 256 * u32::from(plan.infinity)
}

// The last four bits of e - b.
fn low_bits(e: u32, b: u32) -> u32
    ensures { result ≡ (e % 16 + 16 - b % 16) % 16 }
{
    (e % 16 + 16 - b % 16) % 16
}

// The differences of entries i and i + 1 in one byte, the first in its first four bits.
fn pair_byte<'a>(plan: Plan, old: &'a [u8], new: &'a [u8], i: usize) -> u8
    requires { (length (base_by plan old.now new.now) ≡ length new.now)
        × (all_near new.now (base_by plan old.now new.now) ≡ true)
        × (i + 1 < length new.now) }
    ensures { result ≡ pair_in new.now (base_by plan old.now new.now) i }
{
    let e = pair_at(new, i);
    let b = base_pair(plan, old, new, i);
    (low_bits(e, b) * 16 + low_bits(e / 256, b / 256)) as u8
}

// Byte j of the run's data.
fn data_byte<'a>(plan: Plan, old: &'a [u8], new: &'a [u8], j: usize) -> u8
    requires { Sound plan old.now new.now × (j < length (data_by plan old.now new.now)) }
    ensures { result ≡ get_or (data_by plan old.now new.now) j 0 }
{
    if plan.small {
        return pair_byte(plan, old, new, 2 * j);
    }
    let b = base_at(plan.had, old, plan.infinity, new, j);
    difference(new[j], b)
}

// n bytes of the run's data, from byte `from` on, stand at the front of the part.
pub(crate) fn put_data<'a>(
    plan: Plan,
    old: &'a [u8],
    new: &'a [u8],
    from: usize,
    n: usize,
    part: &mut [u8],
)
    requires { Sound plan old.now new.now × (from + n ≤ length (data_by plan old.now new.now)) × (n ≤ length part.old) }
    ensures { part.new ≡ over 0 (take n (drop from (data_by plan old.now new.now))) part.old }
{
    for i in 0..n {
        part[i] = data_byte(plan, old, new, from + i);
    }
}
