// Single writes to an area.
ghost use Rattle.std.specs.Prelude.{◌+◌, ◌≤◌, ◌<◌, length, take, drop};
ghost use Rattle.namearea.specs.Area.{most_names, text_from};
ghost use Rattle.namelist.specs.Moves.{CountPut, PairPut, TextPut};

use namearea::Span;

// The count.
pub(crate) fn put_count(area: &mut [u8], n: u32)
    requires { text_from ≤ length area.old }
    ensures { CountPut area.old n area.new }
{
    area[..4].copy_from_slice(&n.to_le_bytes());
}

// Pair i.
pub(crate) fn put_pair(area: &mut [u8], i: usize, s: Span)
    requires { (text_from ≤ length area.old) × (i < most_names) }
    ensures { PairPut area.old i s area.new }
{
    let at = 4 + 8 * i;
    area[at..at + 4].copy_from_slice(&s.offset.to_le_bytes());
    area[at + 4..at + 8].copy_from_slice(&s.size.to_le_bytes());
}

// A text at a place of the text.
pub(crate) fn put_text(area: &mut [u8], at: usize, text: &[u8])
    requires { (text_from ≤ at) × (at + length text.now ≤ length area.old) }
    ensures { TextPut area.old at text.now area.new }
{
    area[at..at + text.len()].copy_from_slice(text);
}

// The n bytes at `from` moved down to `to`; the two may overlap.
pub(crate) fn move_text(area: &mut [u8], to: usize, from: usize, n: usize)
    requires { (text_from ≤ to) × (to ≤ from) × (from + n ≤ length area.old) }
    ensures { TextPut area.old to (take n (drop from area.old)) area.new }
{
    area.copy_within(from..from + n, to);
}
