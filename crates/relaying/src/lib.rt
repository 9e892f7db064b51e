// Floor 6: the call that makes the table to send a neighbour (RULES 23), given whether the station is in order; it sees
// no ring.
#![tactic(auto)]

ghost use Rattle.std.specs.Prelude.{◌≡◌, not, ◌&&◌, [], ◌∷◌, eqb, length, get_or};
ghost use Rattle.laws.specs.Tests.{first_of};
ghost use Rattle.answer.specs.Numbers.{answer_of};
ghost use Rattle.tables.specs.Tables.{no_table, settled};
ghost use Rattle.namearea.specs.Area.{names_in};
ghost use Rattle.nametable.specs.Table.{own_places, with_ones};
ghost use Rattle.tablemerging.specs.Merging.{relayed_entries};
ghost use Rattle.protocol.specs.Lines.{is_other, line_in, each_line};
ghost use Rattle.protocol.specs.Queries.{usual_limit};
ghost use Rattle.relaying.specs.Calls.{station_rules, other_tables, make_answer, made_of, making, making_out};

use answer::Refusal;
use namearea::count_in;
use names::search::list_answer;
use nametable::mark_names;
use protocol::lines::is_other;
use protocol::{LIMIT, LINES, Line};
use refusals::other_room;
use station::lines::tables_of;
use std::array;
use tablemerger::merge_tables;
use tablereader::bounds::good_length;
use tables::{SETTLED, Table};

// What the caller is told: the answer, and the Infinity to write the table with, which is 0 where it is refused.
#[repr(C)]
#[derive(Clone, Copy)]
pub struct Made {
    pub answer: u8,
    pub infinity: u8,
}

impl From<Result<u8, Refusal>> for Made {
    ghost from_gives = { λ outcome made. made ≡ made_of outcome };

    fn from(outcome: Result<u8, Refusal>) -> Made {
        match outcome {
            Ok(infinity) => Made {
                answer: 0,
                infinity,
            },
            Err(refusal) => Made {
                answer: u8::from(refusal),
                infinity: 0,
            },
        }
    }
}

// Line k, with this table, is another than `line`, and the table is settled.
fn has_say(line: u32, k: u32, table: Table) -> bool
    ensures { result ≡ (is_other line k && eqb table.mark settled) }
{
    is_other(line, k) && table.mark == SETTLED
}

// For each line whether it has a say in what is sent by this one: another line, with a settled table.
fn with_say(tables: [Table; 8], line: u32) -> [bool; 8]
    ensures { result ≡ each_line (λ k. is_other line k && eqb (get_or tables k no_table).mark settled) }
{
    array::from_fn(|k| has_say(line, k as u32, tables[k]))
}

// All entries of the table to send: the tables of the other lines, then the own names.
fn make(
    infinity: u8,
    room: usize,
    lines: [Line; 8],
    line: u32,
    names: &[u8],
    size: u32,
    route: &[u8],
    entries: &mut [u8],
)
    ensures { entries.new ≡ with_ones (own_places size (names_in names.now))
        (relayed_entries infinity (length entries.old) (other_tables room lines line route.now)) }
{
    let tables = tables_of(lines);
    merge_tables(
        with_say(tables, line),
        tables,
        room,
        route,
        infinity,
        entries,
    );
    mark_names(names, count_in(names) as usize, size, entries);
}

// The refusals by state, route area and line, given the route area's length and whether the line is open.
fn station_answer(
    order: bool,
    room: usize,
    route: usize,
    line: u32,
    live: bool,
) -> Result<(), Refusal>
    ensures { answer_of result ≡ first_of (station_rules order room route line live) }
{
    if !order {
        return Err(Refusal::NotInOrder);
    }
    if other_room(room, route) {
        return Err(Refusal::BadArea);
    }
    if line >= LINES || !live {
        return Err(Refusal::BadLine);
    }
    Ok(())
}

// Whether a line is open; one over 7 is not.
fn is_open(lines: [Line; 8], line: u32) -> bool
    ensures { result ≡ (line_in lines line).live }
{
    lines.get(line as usize).is_some_and(|at| at.live)
}

// All refusals, in their order.
fn refusal(
    order: bool,
    room: usize,
    lines: [Line; 8],
    line: u32,
    names: &[u8],
    size: u32,
    out: usize,
    route: usize,
) -> Result<(), Refusal>
    ensures { answer_of result ≡ make_answer order room lines line names.now size out route }
{
    station_answer(order, room, route, line, is_open(lines, line))?;
    list_answer(names)?;
    if !good_length(size) {
        return Err(Refusal::BadUpdate);
    }
    if out < size as usize {
        return Err(Refusal::BadArea);
    }
    Ok(())
}

// The table to send by a line, at the front of the output, and the Infinity to write it with.
pub fn make_table(
    order: bool,
    room: usize,
    lines: [Line; 8],
    line: u32,
    names: &[u8],
    size: u32,
    out: &mut [u8],
    route: &[u8],
) -> Result<u8, Refusal>
    ensures told { made_of result ≡ making usual_limit order room lines line names.now size
        (length out.old) (length route.now) }
    ensures bytes { out.new
        ≡ making_out usual_limit order room lines line names.now size
        out.old route.now }
{
    refusal(
        order,
        room,
        lines,
        line,
        names,
        size,
        out.len(),
        route.len(),
    )?;
    let infinity = LIMIT + 1;
    let n = size as usize;
    make(
        infinity,
        room,
        lines,
        line,
        names,
        size,
        route,
        &mut out[..n],
    );
    Ok(infinity)
}
