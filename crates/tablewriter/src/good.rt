// Whether tables may be written, and whether their differences are small.
ghost use Rattle.std.specs.Prelude.{◌≡◌, true, ◌+◌, ◌<◌, min, length, get_or};
ghost use Rattle.laws.specs.Tests.{all};
ghost use Rattle.tablemessages.specs.Writer.{base_of, near, all_near, good_table, in_range};
ghost use Rattle.tablemessages.specs.Steps.{may_write};

use crate::{MOST_DATA, Wanted};
use tablereader::bounds::{good_infinity, good_length};

// The longest table.
const LONGEST: usize = 65536;

// Every entry is in 1..Infinity. No way out before the end: the turns are alike.
fn in_range(entries: &[u8], infinity: u8) -> bool
    ensures { result ≡ all (in_range infinity) entries.now }
{
    let mut good = true;
    for e in entries {
        good &= (1 <= *e) & (*e <= infinity);
    }
    good
}

// A table that may be written: its length and Infinity are good, and its entries in range.
fn good_table(entries: &[u8], infinity: u8) -> bool
    ensures { result ≡ good_table entries.now infinity }
{
    entries.len() <= LONGEST
        && good_length(entries.len() as u32)
        && good_infinity(infinity)
        && in_range(entries, infinity)
}

// The difference of two entries lies in -8..7.
fn is_near(e: u8, b: u8) -> bool
    ensures { result ≡ near e b }
{
    (e <= b.saturating_add(7)) & (b <= e.saturating_add(8))
}

// What the difference of entry i is taken from: the old table's entry, or Infinity where there is no old table.
pub(crate) fn base_at<'a>(had: bool, old: &'a [u8], infinity: u8, new: &'a [u8], i: usize) -> u8
    requires { (length (base_of had old.now new.now infinity) ≡ length new.now) × (i < length new.now) }
    ensures { result ≡ get_or (base_of had old.now new.now infinity) i 0 }
{
    if had { old[i] } else { infinity }
}

// Every difference lies in -8..7. No way out before the end: the turns are alike.
pub(crate) fn all_near<'a>(had: bool, old: &'a [u8], infinity: u8, new: &'a [u8]) -> bool
    requires { length (base_of had old.now new.now infinity) ≡ length new.now }
    ensures { result ≡ all_near new.now (base_of had old.now new.now infinity) }
{
    let mut good = true;
    for (i, e) in new.iter().enumerate() {
        good &= is_near(*e, base_at(had, old, infinity, new, i));
    }
    good
}

// The tables and the data size may be written. Test by test: as one expression the search finds no proof of it.
pub(crate) fn may_write<'a>(w: Wanted, old: &'a [u8], new: &'a [u8]) -> bool
    ensures { result ≡ may_write w.had old.now w.was new.now w.infinity w.size }
{
    let had = w.had;
    let was = w.was;
    let infinity = w.infinity;
    let size = w.size;
    if size < 1 {
        return false;
    }
    if MOST_DATA < size {
        return false;
    }
    if !had {
        return good_table(new, infinity);
    }
    if old.len() != new.len() {
        return false;
    }
    if was != infinity {
        return false;
    }
    let good = good_table(old, was);
    if !good {
        return false;
    }
    good_table(new, infinity)
}
