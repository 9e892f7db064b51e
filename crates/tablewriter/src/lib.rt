// Floor 2: the updates that turn one route table into another, written as messages, by the rules of crate
// tablemessages.
#![tactic(auto)]

mod data;
mod good;
mod run;

ghost use Rattle.std.specs.Prelude.{◌≡◌};
ghost use Rattle.tablemessages.specs.Writer.{written_by, writer_result, writer_out};
ghost use Rattle.tablemessages.specs.Steps.{reset_length};

use answer::{Refusal, require};
use data::data_length;
use good::{all_near, may_write};
use run::put_all;
use tablemessages::Plan;
use wire::{HEADER_SIZE, LARGEST_PAYLOAD};

// How many bytes a RESET has, a PATCH in front of its data, and the most data of one PATCH.
const RESET_SIZE: usize = HEADER_SIZE + 6;

const PATCH_HEAD: usize = HEADER_SIZE + 5;

const MOST_DATA: usize = LARGEST_PAYLOAD - 5;

// What is wanted beside the tables' entries: whether there was an old table and with which Infinity, the new one's
// Infinity, and how many bytes of data each PATCH of the run has but the last.
#[derive(Clone, Copy)]
pub struct Wanted {
    pub had: bool,
    pub was: u8,
    pub infinity: u8,
    pub size: usize,
}

// How many bytes a RESET takes, where there was no old table.
fn reset_length(had: bool) -> usize
    ensures { result ≡ reset_length had }
{
    if had { 0 } else { RESET_SIZE }
}

// The messages that turn the old table into the new one: how many bytes they are, or why there are none. Where there is
// no old table, `old` and its Infinity are not looked at.
pub fn write_table<'a>(
    number: [u8; 16],
    w: Wanted,
    old: &'a [u8],
    new: &'a [u8],
    out: &mut [u8],
) -> Result<usize, Refusal>
    ensures result { written_by result ≡ writer_result number w.had old.now w.was new.now w.infinity w.size out.old }
    ensures bytes { out.new
        ≡ writer_out number w.had old.now w.was new.now w.infinity w.size out.old }
{
    let Wanted {
        had,
        infinity,
        size,
        ..
    } = w;
    require(may_write(w, old, new), Refusal::BadUpdate)?;
    let small = all_near(had, old, infinity, new);
    let data = data_length(small, new.len());
    let count = (data + size - 1) / size;
    require(count <= 255, Refusal::BadUpdate)?;
    let total = reset_length(had) + PATCH_HEAD * count + data;
    require(total <= out.len(), Refusal::BadArea)?;
    let plan = Plan {
        had,
        infinity,
        small,
        size,
        count: count as u8,
    };
    put_all(number, plan, old, new, &mut *out);
    Ok(total)
}
