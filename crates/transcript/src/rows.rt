// The rows of the text.
ghost use Rattle.std.specs.Prelude.{◌+◌, ◌<◌, ◌≤◌, length};
ghost use Rattle.laws.specs.Parts.{Put};
ghost use Rattle.protocol.specs.Memory.{capacity};
ghost use Rattle.transcript.specs.Rows.{flag_text, sent_text, column_text, age_text, row_text};

use crate::events::Answered;
use crate::put::{put_byte, put_number, put_text};
use protocol::Age;

// Line k, if its flag is true, behind the lines that stand before it.
fn put_flag(out: &mut [u8], at: usize, started: bool, flag: bool, k: u8) -> usize
    requires { (at + 2 ≤ length out.old) × (k < 8) }
    ensures { Put at (flag_text started flag k) out.old out.new result }
{
    match (started, flag) {
        (_, false) => at,
        (false, true) => put_byte(out, at, b'0' + k),
        (true, true) => put_text(out, at, &[b',', b'0' + k]),
    }
}

// The lines that were sent to.
fn put_sent(out: &mut [u8], at: usize, to: [bool; 8]) -> usize
    requires { at + 17 ≤ length out.old }
    ensures text { Put at (sent_text to) out.old out.new result }
    ensures near { result ≤ at + 17 }
{
    let mut next = at;
    let mut started = false;
    for (k, flag) in to.iter().enumerate() {
        next = put_flag(out, next, started, *flag, k as u8);
        started = started || *flag;
    }
    if started {
        next
    } else {
        put_byte(out, next, b'-')
    }
}

// A number and the space behind it.
fn put_column(out: &mut [u8], at: usize, n: u16) -> usize
    requires { at + 6 ≤ length out.old }
    ensures text { Put at (column_text n) out.old out.new result }
    ensures near { result ≤ at + 6 }
{
    let next = put_number(out, at, n);
    put_byte(out, next, b' ')
}

// The age, or a dash for none.
fn put_age(out: &mut [u8], at: usize, age: Age) -> usize
    requires { (at + 5 ≤ length out.old) × (age.after < capacity) }
    ensures text { Put at (age_text age) out.old out.new result }
    ensures near { result ≤ at + 5 }
{
    if age.known {
        put_number(out, at, age.after as u16)
    } else {
        put_byte(out, at, b'-')
    }
}

// A row: the event's number, the answer, the lines that were sent to, and the age.
pub(crate) fn put_row(out: &mut [u8], at: usize, i: u16, answered: Answered) -> usize
    requires { (at + 36 ≤ length out.old) × (answered.age.after < capacity) }
    ensures text { Put at (row_text i answered.answer answered.to answered.age) out.old out.new result }
    ensures near { result ≤ at + 36 }
{
    let to = answered.to;
    let a = put_column(out, at, i);
    let b = put_column(out, a, u16::from(answered.answer));
    let c = put_sent(out, b, to);
    let d = put_byte(out, c, b' ');
    let e = put_age(out, d, answered.age);
    put_byte(out, e, b'\n')
}
