// What is read off the eight lines, all at once.
ghost use Rattle.std.specs.Prelude.{◌≡◌, ◌<◌};
ghost use Rattle.protocol.specs.Lines.{lives_in, tables_in};
ghost use Rattle.protocol.specs.Order.{lines_in_order};
ghost use Rattle.station.specs.Actions.{view_of};

use pongrings::order::line_in_order;
use protocol::Line;
use tables::Table;

// Whether all lines are in order, the record of one, and for each whether it is open, and its table.
#[derive(Clone, Copy)]
pub struct View {
    pub order: bool,
    pub line: Line,
    pub live: [bool; 8],
    pub tables: [Table; 8],
}

// Whether all are in order, for each neighbour's table this room.
fn lines_in_order(lines: [Line; 8], room: usize) -> bool
    ensures { result ≡ lines_in_order room lines }
{
    lines.iter().all(|x| line_in_order(*x, room))
}

// Which lines are open.
pub fn lives(lines: [Line; 8]) -> [bool; 8]
    ensures { result ≡ lives_in lines }
{
    [
        lines[0].live,
        lines[1].live,
        lines[2].live,
        lines[3].live,
        lines[4].live,
        lines[5].live,
        lines[6].live,
        lines[7].live,
    ]
}

// The tables of the lines.
pub fn tables_of(lines: [Line; 8]) -> [Table; 8]
    ensures { result ≡ tables_in lines }
{
    let mut tables = [lines[0].table; 8];
    let mut k = 1;
    while k < 8 {
        tables[k] = lines[k].table;
        k += 1;
    }
    tables
}

// All of it, with the record of line l, for each neighbour's table this room.
pub(crate) fn read_lines(lines: [Line; 8], room: usize, l: u32) -> View
    requires { l < 8 }
    ensures { result ≡ view_of lines room l }
{
    View {
        order: lines_in_order(lines, room),
        line: lines[l as usize],
        live: lives(lines),
        tables: tables_of(lines),
    }
}
