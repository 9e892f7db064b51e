// Whether a table is in order (RULES 4.7, 4.8).
ghost use Rattle.std.specs.Prelude.{◌≡◌, leb, [], ◌∷◌};
ghost use Rattle.laws.specs.Tests.{every};
ghost use Rattle.tables.specs.Tables.{inside_run, between_runs, good_length, good_infinity, table_in_order};

use crate::bounds::{good_infinity, good_length};
use crate::fields::good_bits;
use tables::{Mark, Table};

// The run position of a table inside a run.
fn inside_run(table: Table) -> bool
    ensures { result ≡ inside_run table }
{
    2 <= table.nextplace
        && table.nextplace <= table.runsize
        && good_bits(table.runbits)
        && table.nextentry <= table.length
}

// The run position of a table that is waiting or settled.
fn between_runs(table: Table) -> bool
    ensures { result ≡ between_runs table }
{
    table.nextplace == 1 && table.nextentry == 0
}

// Length and Infinity of a table that is waiting, running or settled.
fn good_size(table: Table, room: usize) -> bool
    ensures { result ≡ every (good_length table.length ∷ leb table.length room ∷ good_infinity table.infinity ∷ []) }
{
    good_length(table.length) && table.length as usize <= room && good_infinity(table.infinity)
}

// The table is in order, with room for this many entries.
pub fn in_order(table: Table, room: usize) -> bool
    ensures { result ≡ table_in_order room table }
{
    match Mark::try_from(table.mark) {
        Err(_) => false,
        Ok(Mark::NoTable | Mark::Broken) => true,
        Ok(Mark::Running) => good_size(table, room) && inside_run(table),
        Ok(Mark::Waiting | Mark::Settled) => good_size(table, room) && between_runs(table),
    }
}
