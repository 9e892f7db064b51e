// A PATCH against a table: whether it is in turn, whether its numbers lead outside 1..Infinity, and where it moves the
// run.
ghost use Rattle.std.specs.Prelude.{◌≡◌, true, not, ◌&&◌, ◌||◌, eqb, ◌+◌, ◌<◌, ◌^◌, length, IfOk};
ghost use Rattle.answer.specs.Numbers.{answer_of};
ghost use Rattle.tables.specs.Tables.{held_in, at_rest, running};
ghost use Rattle.tables.specs.Marks.{byte_of};
ghost use Rattle.tables.specs.Patch.{numbers};
ghost use Rattle.tables.specs.Updates.{in_turn, in_range, patch_answer, moved_on};
ghost use Rattle.tablereader.specs.Payloads.{payload_of};

use crate::fields::{ends_right, takes_patch};
use crate::held::Held;
use crate::numbers::{all_fit, number_count};
use crate::patch::Patch;
use answer::Refusal;
use tables::{Mark, Table};

// Inside a run the size and the bits are those of its first message.
fn same_run(table: Table, patch: Patch<'_>) -> bool
    ensures { result ≡ (not (eqb table.mark running)
        || (eqb patch.entry.size table.runsize && eqb patch.entry.bits table.runbits)) }
{
    table.mark != u8::from(Mark::Running)
        || (patch.size == table.runsize && patch.bits == table.runbits)
}

impl<'a> Held<'a> {
    // The PATCH is the one that the table awaits, and its data ends where it may.
    fn in_turn(self, patch: Patch<'_>) -> bool
        ensures { result ≡ in_turn (held_in self.entry.table self.entry.part.now) (payload_of patch.entry) }
    {
        let table = self.table;
        let n = number_count(patch.bits, patch.bytes.len());
        let end = self.entries().len();
        takes_patch(table.mark)
            && patch.place == table.nextplace
            && same_run(table, patch)
            && ends_right(table.nextentry as usize, n, end, patch.place == patch.size)
    }

    // Every entry that the data covers stays in 1..Infinity.
    fn in_range(self, patch: Patch<'_>) -> bool
        requires { in_turn (held_in self.table self.part.now) (payload_of patch) ≡ true }
        ensures { result ≡ in_range (held_in self.entry.table self.entry.part.now) (payload_of patch.entry) }
    {
        let at = self.table.nextentry as usize;
        all_fit(
            patch.bytes,
            &self.entries()[at..],
            patch.bits,
            self.table.infinity,
        )
    }

    // The PATCH, where it may be added: a field out of its range, then a PATCH out of turn, then an entry out of range
    // refuses it.
    pub(crate) fn takes<'p>(self, payload: &'p [u8]) -> Result<Patch<'p>, Refusal>
        ensures answer { answer_of result ≡ patch_answer (held_in self.entry.table self.entry.part.now) payload.now }
        ensures fields { IfOk result (λ q. payload_of q ≡ payload.now) }
    {
        let patch = Patch::read(payload)?;
        if !self.in_turn(patch) {
            return Err(Refusal::OutOfTurn);
        }
        if !self.in_range(patch) {
            return Err(Refusal::EntryOutOfRange);
        }
        Ok(patch)
    }
}

// A table between runs: place 1 and the first entry are next.
pub(crate) fn at_rest(mark: Mark, length: u32, infinity: u8) -> Table
    ensures { result ≡ at_rest (byte_of mark) length infinity }
{
    Table {
        mark: u8::from(mark),
        length,
        infinity,
        nextplace: 1,
        runsize: 0,
        runbits: 0,
        nextentry: 0,
    }
}

// The table once the PATCH is added: inside its run, or settled by the run's last message.
pub(crate) fn moved_on(table: Table, patch: Patch<'_>) -> Table
    requires { table.nextentry + length (numbers patch.bits patch.bytes.now) < 2 ^ 32 }
    ensures { result ≡ moved_on table (payload_of patch.entry) }
{
    if patch.place == patch.size {
        return at_rest(Mark::Settled, table.length, table.infinity);
    }
    Table {
        mark: u8::from(Mark::Running),
        nextplace: patch.place + 1,
        runsize: patch.size,
        runbits: patch.bits,
        nextentry: table.nextentry + number_count(patch.bits, patch.bytes.len()) as u32,
        ..table
    }
}
