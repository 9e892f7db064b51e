// Updates of one neighbour's table: RESET and PATCH, on that neighbour's part of the route area alone.
// Everything is tested before a byte is written; a refusal changes the mark and nothing else.
ghost use Rattle.std.specs.Prelude.{◌≡◌, length};
ghost use Rattle.answer.specs.Numbers.{number_of};
ghost use Rattle.tables.specs.Tables.{held_in};
ghost use Rattle.tables.specs.Updates.{reset_answer, reset_held, patch_answer, patched_held, update_answer, updated};
ghost use Rattle.tables.specs.Updates.{refused_by, answered, part_with};
ghost use Rattle.tablereader.specs.Outcomes.{updated_as};

use crate::fields::is_patch;
use crate::held::Held;
use crate::numbers::add_all;
use crate::reset::Reset;
use crate::turns::{at_rest, moved_on};
use answer::Refusal;
use tables::{Mark, Table};

// A refused update: only the mark changes.
fn refuse(refusal: Refusal, table: &mut Table) -> Result<(), Refusal>
    ensures { updated_as result table.new ≡ refused_by (number_of refusal) table.old }
{
    table.mark = u8::from(Mark::Broken);
    Err(refusal)
}

// A RESET, whatever its TTL and Hops: refused, or every entry is Infinity and the table waits for a run.
pub fn reset(table: &mut Table, payload: &[u8], part: &mut [u8]) -> Result<(), Refusal>
    ensures result { updated_as result table.new ≡ answered
        (reset_answer (length part.old) payload.now)
        (reset_held (length part.old) (held_in table.old part.old) payload.now) }
    ensures entries { part.new ≡ part_with
        (reset_held (length part.old) (held_in table.old part.old) payload.now)
        part.old }
{
    let reset = match Reset::read(payload, part.len()) {
        Ok(reset) => reset,
        Err(refusal) => return refuse(refusal, table),
    };
    part[..reset.length as usize].fill(reset.infinity);
    *table = at_rest(Mark::Waiting, reset.length, reset.infinity);
    Ok(())
}

// A PATCH, whatever its TTL and Hops: refused, or its numbers are added to the entries that it covers.
pub fn patch(table: &mut Table, payload: &[u8], part: &mut [u8]) -> Result<(), Refusal>
    ensures result { updated_as result table.new ≡ answered
        (patch_answer (held_in table.old part.old) payload.now)
        (patched_held (held_in table.old part.old) payload.now) }
    ensures entries { part.new ≡ part_with
        (patched_held (held_in table.old part.old) payload.now)
        part.old }
{
    let before = *table;
    let held = Held {
        table: before,
        part,
    };
    let patch = match held.takes(payload) {
        Ok(patch) => patch,
        Err(refusal) => return refuse(refusal, table),
    };
    let at = before.nextentry as usize;
    let end = held.entries().len();
    add_all(patch.bytes, &mut part[at..end], patch.bits);
    *table = moved_on(before, patch);
    Ok(())
}

// An update with its TTL and Hops.
pub fn update(
    table: &mut Table,
    ttl: u8,
    hops: u8,
    payload: &[u8],
    part: &mut [u8],
) -> Result<(), Refusal>
    ensures result { updated_as result table.new ≡ answered
        (update_answer (length part.old) (held_in table.old part.old) ttl hops payload.now)
        (updated (length part.old) (held_in table.old part.old) ttl hops payload.now) }
    ensures entries { part.new ≡ part_with
        (updated (length part.old) (held_in table.old part.old) ttl hops payload.now)
        part.old }
{
    if ttl != 1 || hops != 0 {
        return refuse(Refusal::BadUpdate, table);
    }
    if is_patch(payload) {
        patch(table, payload, part)
    } else {
        reset(table, payload, part)
    }
}
