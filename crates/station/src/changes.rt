// A fresh state, and lines opened and closed.
ghost use Rattle.std.specs.Prelude.{◌≡◌, cond, ◌%◌, eqb};
ghost use Rattle.std.specs.Result.{result_unwrap_or};
ghost use Rattle.answer.specs.Numbers.{answer_of};
ghost use Rattle.protocol.specs.Memory.{gone};
ghost use Rattle.protocol.specs.Lines.{empty_line};
ghost use Rattle.protocol.specs.Calls.{fresh_room, fresh_answer};
ghost use Rattle.station.specs.Calls.{begun_over, changed_by, opened_by, closed_by};

use crate::lines::read_lines;
use answer::{Refusal, answer};
use protocol::{GONE, Line, Pending, Pong};
use tables::no_table;

// The answer to an opening or closing, and the record of its line after it.
#[repr(C)]
#[derive(Clone, Copy)]
pub struct LineChange {
    pub answer: u8,
    pub line: Line,
}

// The answer to a fresh state, and its room and lines.
#[repr(C)]
#[derive(Clone, Copy)]
pub struct Beginning {
    pub answer: u8,
    pub room: usize,
    pub lines: [Line; 8],
}

// A line with no table, no pongs, no accepted ping and nothing held.
fn empty_line(live: bool) -> Line
    ensures { result ≡ empty_line live }
{
    let pong = Pong {
        bytes: [0; 14],
        hops: 0,
        clock: 0,
    };
    Line {
        live,
        pinged: false,
        pingtime: 0,
        pongcount: 0,
        pongnext: 0,
        pongs: [pong; 10],
        table: no_table(),
        pending: Pending {
            count: 0,
            shut: false,
        },
    }
}

// The room for each neighbour's table in a route area of n bytes; refused, the fresh state has none.
fn room_of(n: usize) -> Result<usize, Refusal>
    ensures answer { answer_of result ≡ fresh_answer n }
    ensures room { result_unwrap_or result 0 ≡ fresh_room n }
{
    if n < 32 {
        Err(Refusal::BadArea)
    } else {
        Ok(n / 8)
    }
}

// The answer, the room and the lines of a fresh state over a route area of so many bytes.
pub fn begin(length: usize) -> Beginning
    ensures { result ≡ begun_over length }
{
    let room = room_of(length);
    Beginning {
        answer: answer(room),
        room: room.unwrap_or(0),
        lines: [empty_line(false); 8],
    }
}

// A line with this record after an opening or closing that ends so.
fn changed(outcome: Result<(), Refusal>, live: bool, x: Line) -> LineChange
    ensures { result ≡ changed_by (answer_of outcome) live x }
{
    LineChange {
        answer: answer(outcome),
        line: if outcome.is_ok() { empty_line(live) } else { x },
    }
}

// A line is opened, given whether the ring is in order. The record that comes back belongs at line % 8.
pub fn open_line(order: bool, room: usize, lines: [Line; 8], line: u32) -> LineChange
    ensures { result ≡ opened_by order room lines line }
{
    let v = read_lines(lines, room, line % 8);
    let outcome = refusals::opening(order & v.order, line, v.line.live);
    changed(outcome, true, v.line)
}

// The line whose queries are marked gone; gone itself, which marks nothing, where the closing is refused.
pub fn leaver(answer: u8, line: u32) -> u8
    ensures { result ≡ cond (eqb answer 0) (line % 8) gone }
{
    if answer == 0 { (line % 8) as u8 } else { GONE }
}

// A line is closed, given whether the ring is in order. The record that comes back belongs at line % 8; the ring
// marks the queries of `leaver` gone.
pub fn close_line(order: bool, room: usize, lines: [Line; 8], line: u32) -> LineChange
    ensures { result ≡ closed_by order room lines line }
{
    let v = read_lines(lines, room, line % 8);
    let outcome = refusals::closing(order & v.order, line, v.line.live);
    changed(outcome, false, v.line)
}
