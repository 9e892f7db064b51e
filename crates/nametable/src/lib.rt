// Floor 2: the table that tells neighbours which keywords the station's own names have (RULES 22.11).
#![tactic(auto)]

ghost use Rattle.std.specs.Prelude.{◌≡◌, length, set, replicate};
ghost use Rattle.answer.specs.Numbers.{answer_of};
ghost use Rattle.namearea.specs.Area.{names_of};
ghost use Rattle.nametable.specs.Table.{places_of, own_places, with_ones, table_answer, table_out};

use answer::Refusal;
use keywords::cut::keywords;
use keywords::hash::{hash, scaled_place};
use namearea::{count_in, name_of, span_at};
use names::search::list_answer;
use tablereader::bounds::{good_infinity, good_length};

// Writes 1 at a place; one past the entries changes none.
fn mark(place: usize, entries: &mut [u8])
    ensures { entries.new ≡ set entries.old place 1 }
{
    if place < entries.len() {
        entries[place] = 1;
    }
}

// Writes 1 at the place of each keyword of a text in a table of so many entries.
fn mark_text(text: &[u8], size: u32, entries: &mut [u8])
    ensures { entries.new ≡ with_ones (places_of size text.now) entries.old }
{
    for keyword in keywords(text) {
        mark(scaled_place(hash(keyword), size) as usize, entries);
    }
}

// The same of the first `count` names of an area.
pub fn mark_names(area: &[u8], count: usize, size: u32, entries: &mut [u8])
    ensures { entries.new ≡ with_ones (own_places size (names_of count area.now)) entries.old }
{
    for i in 0..count {
        mark_text(name_of(area, span_at(area, i)), size, entries);
    }
}

// All entries of the table of the first `count` names of an area.
fn make(area: &[u8], count: usize, size: u32, infinity: u8, entries: &mut [u8])
    ensures { entries.new ≡ with_ones
        (own_places size (names_of count area.now))
        (replicate (length entries.old) infinity) }
{
    entries.fill(infinity);
    mark_names(area, count, size, entries);
}

// The table of an area's names, at the front of the output.
pub fn own_table(area: &[u8], size: u32, infinity: u8, out: &mut [u8]) -> Result<(), Refusal>
    ensures answer { answer_of result ≡ table_answer area.now size infinity (length out.old) }
    ensures bytes { out.new ≡ table_out area.now size infinity out.old }
{
    list_answer(area)?;
    if !good_length(size) || !good_infinity(infinity) {
        return Err(Refusal::BadUpdate);
    }
    let n = size as usize;
    if out.len() < n {
        return Err(Refusal::BadArea);
    }
    make(area, count_in(area) as usize, size, infinity, &mut out[..n]);
    Ok(())
}
