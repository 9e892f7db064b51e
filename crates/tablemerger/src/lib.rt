// Floor 3: the entries of a table by other tables, of the same length, shorter or longer ones, which stand in the parts
// of one area (RULES 23.5 to 23.8). The rules are those of crate tablemerging.
#![tactic(auto)]

ghost use Rattle.std.specs.Prelude.{◌≡◌, ℕ, cond, map, ◌+◌, ◌*◌, ◌≤◌, ◌<◌, min, eqb, length, slice_index};
ghost use Rattle.tablemerging.specs.Merging.{reaching, nearest, relayed_entries, merged, merged_all};
ghost use Rattle.tablemerger.specs.Lowering.{lowered, Within};
ghost use Rattle.tablemerger.specs.Parts.{part_tables};

use tables::Table;

// Lowers nothing: no entry is above it.
const NONE: u8 = 255;

// One more than an entry, and nothing where the entry is its own table's Infinity.
fn farther(entry: u8, infinity: u8) -> u8
    ensures { result ≡ cond (eqb entry infinity) 255 (min 255 (entry + 1)) }
{
    if entry == infinity {
        NONE
    } else {
        entry.saturating_add(1)
    }
}

// Each entry becomes at most what `taken` gives for its place.
fn lower_each<F: Fn(usize) -> u8>(entries: &mut [u8], taken: F)
    requires { (i : ℕ) → i < length entries.old → F.pre taken i }
    ensures { (i : ℕ) → i < length entries.old
        → (v : ℕ) × F.post taken i v × (slice_index entries.new i ≡ min v (slice_index entries.old i)) }
{
    for (i, entry) in entries.iter_mut().enumerate() {
        *entry = taken(i).min(*entry);
    }
}

// One more than the least of a block's entries that count, or x where that is not above it.
fn nearest_in(block: &[u8], infinity: u8, x: u8) -> u8
    ensures { result ≡ nearest x (reaching infinity block.now) }
{
    let mut least = x;
    for e in block {
        least = farther(*e, infinity).min(least);
    }
    least
}

// A longer one: into each entry a block of its entries. By an index: through `lower_each` it takes 1.26 times as long.
fn merge_blocks(table: &[u8], infinity: u8, entries: &mut [u8])
    requires { (0 < length entries.old) × (length entries.old ≤ length table.now) }
    ensures { entries.new ≡ merged infinity table.now entries.old }
{
    let size = table.len() / entries.len();
    let mut rest = table;
    let mut i = 0;
    while i < entries.len() {
        entries[i] = nearest_in(&rest[..size], infinity, entries[i]);
        rest = &rest[size..];
        i += 1;
    }
}

// One of half the length: each of its entries into two, in one loop with no call for each entry.
fn merge_half(table: &[u8], infinity: u8, entries: &mut [u8])
    requires { length entries.old ≡ 2 * length table.now }
    ensures { entries.new ≡ merged infinity table.now entries.old }
{
    for (j, e) in table.iter().enumerate() {
        let v = farther(*e, infinity);
        entries[2 * j] = v.min(entries[2 * j]);
        entries[2 * j + 1] = v.min(entries[2 * j + 1]);
    }
}

// A shorter one: each of its entries into a block.
fn merge_shorter(table: &[u8], infinity: u8, entries: &mut [u8])
    requires { (0 < length table.now) × (length table.now < length entries.old) }
    ensures { entries.new ≡ merged infinity table.now entries.old }
{
    let size = entries.len() / table.len();
    for (j, e) in table.iter().enumerate() {
        let v = farther(*e, infinity);
        lower_each(&mut entries[j * size..j * size + size], |_i| v);
    }
}

// One that is not shorter: into each entry a block of its entries. Where both have as many entries, or the table has
// twice as many, there is no loop for a block; and where one more than the table's Infinity is not below `most`, above
// which no entry is, its Infinity lowers none of them, so that no entry of it has to be compared with it.
fn merge_longer(table: &[u8], infinity: u8, most: u8, entries: &mut [u8])
    requires { (0 < length entries.old) × (length entries.old ≤ length table.now) × Within most entries.old }
    ensures { entries.new ≡ merged infinity table.now entries.old }
{
    if table.len() == entries.len() {
        if most <= infinity.saturating_add(1) {
            lower_each(entries, |i| table[i].saturating_add(1));
        } else {
            lower_each(entries, |i| farther(table[i], infinity));
        }
    } else if table.len() - entries.len() == entries.len() {
        lower_each(entries, |i| {
            farther(table[2 * i], infinity).min(farther(table[2 * i + 1], infinity))
        });
    } else {
        merge_blocks(table, infinity, entries);
    }
}

// The entries, none of which is above `most`, with a table merged into them, of whatever lengths.
fn merge(table: &[u8], infinity: u8, most: u8, entries: &mut [u8])
    requires { Within most entries.old }
    ensures { entries.new ≡ merged infinity table.now entries.old }
{
    if entries.len() == 0 || table.len() == 0 {
        return;
    }
    if entries.len() <= table.len() {
        merge_longer(table, infinity, most, entries);
    } else if entries.len() - table.len() == table.len() {
        merge_half(table, infinity, entries);
    } else {
        merge_shorter(table, infinity, entries);
    }
}

// Merges one table and then another: in one pass over the entries, which takes less time than two, where both have as
// many entries and neither's Infinity lowers any.
fn merge_pair(
    first: &[u8],
    infinity1: u8,
    second: &[u8],
    infinity2: u8,
    most: u8,
    entries: &mut [u8],
)
    requires { Within most entries.old }
    ensures { entries.new
        ≡ merged infinity2 second.now
        (merged infinity1 first.now entries.old) }
{
    if first.len() == entries.len()
        && second.len() == entries.len()
        && most <= infinity1.min(infinity2).saturating_add(1)
    {
        lower_each(entries, |i| first[i].min(second[i]).saturating_add(1));
    } else {
        merge(first, infinity1, most, entries);
        merge(second, infinity2, most, entries);
    }
}

// How many entries of a table stand at the front of a part of so many bytes: none where it is not picked.
fn standing(picked: bool, table: Table, bytes: usize) -> usize
    ensures { (result ≡ cond picked (min table.length bytes) 0) × (result ≤ bytes) }
{
    if picked {
        (table.length as usize).min(bytes)
    } else {
        0
    }
}

// Merges the tables that are picked into entries none of which is above `most`, a pair at a time. The parts of the area
// stand one after another; the last may be short or missing.
fn merge_parts(
    picked: [bool; 8],
    tables: [Table; 8],
    room: usize,
    area: &[u8],
    most: u8,
    entries: &mut [u8],
)
    requires { Within most entries.old }
    ensures { entries.new
        ≡ merged_all (part_tables picked tables room area.now) entries.old }
{
    let mut rest = area;
    for pair in 0..4 {
        let k = 2 * pair;
        let n = room.min(rest.len());
        let behind = &rest[n..];
        let m = room.min(behind.len());
        let a = standing(picked[k], tables[k], n);
        let b = standing(picked[k + 1], tables[k + 1], m);
        merge_pair(
            &rest[..a],
            tables[k].infinity,
            &behind[..b],
            tables[k + 1].infinity,
            most,
            entries,
        );
        rest = &behind[m..];
    }
}

// The entries by those of eight tables that are picked: table k stands at the front of part k of an area, of so many
// bytes each.
pub fn merge_tables(
    picked: [bool; 8],
    tables: [Table; 8],
    room: usize,
    area: &[u8],
    infinity: u8,
    entries: &mut [u8],
)
    ensures { entries.new
        ≡ relayed_entries infinity (length entries.old)
        (part_tables picked tables room area.now) }
{
    entries.fill(infinity);
    merge_parts(picked, tables, room, area, infinity, entries);
}
