// The fields of an update and of a table, each tested on its own.
ghost use Rattle.std.specs.Prelude.{◌≡◌, not, ◌&&◌, ◌||◌, ◌+◌, eqb, leb};
ghost use Rattle.tables.specs.Patch.{good_bits};
ghost use Rattle.tables.specs.Tables.{ready};
ghost use Rattle.tables.specs.Updates.{is_patch};

use tables::Mark;

// How many bits a number of a PATCH may have.
pub(crate) fn good_bits(bits: u8) -> bool
    ensures { result ≡ good_bits bits }
{
    matches!(bits, 4 | 8)
}

// A table with this mark takes a PATCH.
pub(crate) fn takes_patch(mark: u8) -> bool
    ensures { result ≡ ready mark }
{
    matches!(
        Mark::try_from(mark),
        Ok(Mark::Waiting | Mark::Running | Mark::Settled)
    )
}

// n entries from `at` on end by `end`; those of the last message of a run end there.
pub(crate) fn ends_right(at: usize, n: usize, end: usize, last: bool) -> bool
    ensures { result ≡ (leb (at + n) end && (not last || eqb (at + n) end)) }
{
    at <= end && n <= end - at && (!last || n == end - at)
}

// The update's variant is that of a PATCH.
pub(crate) fn is_patch(payload: &[u8]) -> bool
    ensures { result ≡ is_patch payload.now }
{
    matches!(payload, [1, ..])
}
