// The lines behind a group's first: whether they are fields, and the value of a name.
#![tactic(auto)]

ghost use Rattle.std.specs.Prelude.{◌≡◌, ◌++◌, ◌+◌, ◌≤◌, length, IfOk, IfSome};
ghost use Rattle.laws.specs.Parts.{over};
ghost use Rattle.ascii.specs.Text.{same_name};
ghost use Rattle.answer.specs.Numbers.{answer_of};
ghost use Rattle.groups.specs.Lines.{lines_of};
ghost use Rattle.fields.specs.Fields.{continues, is_field, name_length, name_of, field_ok, value_for};
ghost use Rattle.fields.specs.Step.{passed, value_start, step_of, separated, found_in, found_by, refused_in, lengths};
ghost use Rattle.fields.specs.Step.{WholeFrom, written_in};

use answer::Refusal;
use ascii::{Class, after, byte_at, front, is_blank, leading};
use groups::lines::{line_at, line_ends};

// A line, and how long the name at its front is.
#[derive(Clone, Copy)]
struct Line<'a> {
    text: &'a [u8],
    name: usize,
    ghost measured: { name ≡ name_length text.now },
}

// What a line adds to the value of a name: a separator, where there is one, and the line from a place on. `mine`: the
// last field has the name; `found`: a field of the name was met.
#[derive(Clone, Copy)]
pub struct Step {
    pub mine: bool,
    pub found: bool,
    pub separator: Option<u8>,
    pub from: usize,
}

// The line adds nothing.
fn passed(found: bool, length: usize) -> Step
    ensures { result ≡ passed found length }
{
    Step {
        mine: false,
        found,
        separator: None,
        from: length,
    }
}

impl<'a> Line<'a> {
    fn new(text: &'a [u8]) -> Line<'a>
        ensures { result.text.now ≡ text.now }
    {
        Line {
            text,
            name: leading(text, Class::Name),
        }
    }

    // A line that begins with a blank goes on with the value before it.
    fn continues(self) -> bool
        ensures { result ≡ continues self.entry.text.now }
    {
        is_blank(byte_at(self.text, 0))
    }

    // A name of one byte or more, and a colon right behind it.
    fn is_field(self) -> bool
        ensures { result ≡ is_field self.entry.text.now }
    {
        self.name > 0 && byte_at(self.text, self.name) == b':'
    }

    // The line is a field or, where a field stands before it, goes on.
    fn field_ok(self, before: bool) -> bool
        ensures { result ≡ field_ok before self.entry.text.now }
    {
        self.is_field() || before && self.continues()
    }

    // The line has the name.
    fn is_named(self, name: &[u8]) -> bool
        ensures { result ≡ same_name (name_of self.entry.text.now) name.now }
    {
        front(self.text, self.name).eq_ignore_ascii_case(name)
    }

    // Where the value of a field starts: behind the colon and the blanks.
    fn value_start(self) -> usize
        ensures { result ≡ value_start self.entry.text.now }
    {
        let colon = self.name + 1;
        colon + leading(after(self.text, colon), Class::Blank)
    }

    // A line that goes on adds to the value where the last field has the name, behind a space; a field of the name
    // does, behind a comma where it is not the first.
    #[tactic(auto, unfolding(crate::specs::Step::step_from))]
    fn step(self, name: &[u8], mine: bool, found: bool) -> Step
        ensures { result ≡ step_of name.now mine found self.entry.text.now }
    {
        if self.continues() {
            if mine {
                Step {
                    mine: true,
                    found,
                    separator: Some(b' '),
                    from: leading(self.text, Class::Blank),
                }
            } else {
                passed(found, self.text.len())
            }
        } else if self.is_named(name) {
            Step {
                mine: true,
                found: true,
                separator: found.then_some(b','),
                from: self.value_start(),
            }
        } else {
            passed(found, self.text.len())
        }
    }
}

// The value of a name: how long it is, and a place from which on the lines have all of it, the first of the name.
#[derive(Clone, Copy)]
struct Value {
    first: usize,
    length: usize,
}

// The value of the name, where all lines are fields, each with the lines that go on with it, and one has the name. A
// line is looked at once: its text ends where the line does.
fn search(s: &[u8], name: &[u8]) -> Result<Option<Value>, Refusal>
    ensures value { found_by (lengths result) ≡ found_in name.now (lines_of s.now) }
    ensures refused { answer_of result ≡ refused_in (lines_of s.now) }
    ensures whole_from { IfOk result (λ found. IfSome found (λ value. WholeFrom name.now s.now value.first)) }
{
    let mut next = 0;
    let mut before = false;
    let mut mine = false;
    let mut first: Option<usize> = None;
    let mut total = 0;
    while next < s.len() {
        let rest = after(s, next);
        let size = leading(rest, Class::Text);
        if !line_ends(rest, size) {
            return Err(Refusal::BadHandshake);
        }
        let line = Line::new(front(rest, size));
        if !line.field_ok(before) {
            return Err(Refusal::BadHandshake);
        }
        let added = line.step(name, mine, first.is_some());
        let part = after(line.text, added.from);
        total = total + usize::from(added.separator.is_some()) + part.len();
        first = first.or(added.found.then_some(next));
        before = true;
        mine = added.mine;
        next = next + line.text.len() + 2;
    }
    let Some(first) = first else {
        return Ok(None);
    };
    Ok(Some(Value {
        first,
        length: total,
    }))
}

// How long the value of the name is, where one of the lines has it; refused where not all lines are fields, each with
// the lines that go on with it.
pub fn find(s: &[u8], name: &[u8]) -> Result<Option<usize>, Refusal>
    ensures value { found_by result ≡ found_in name.now (lines_of s.now) }
    ensures refused { answer_of result ≡ refused_in (lines_of s.now) }
{
    Ok(search(s, name)?.map(|value| value.length))
}

// The part is written from place `at` on. What is handed back is the place behind it.
fn put_part(out: &mut [u8], at: usize, part: &[u8]) -> usize
    requires { at + length part.now ≤ length out.old }
    ensures value { result ≡ at + length part.now }
    ensures out_after { out.new ≡ over at part.now out.old }
{
    out[at..at + part.len()].copy_from_slice(part);
    at + part.len()
}

// The separator, where there is one, and the part are written from place `at` on. What is handed back is the place
// behind them.
fn put(out: &mut [u8], at: usize, separator: Option<u8>, part: &[u8]) -> usize
    requires { at + length (separated separator ++ part.now) ≤ length out.old }
    ensures value { result ≡ at + length (separated separator ++ part.now) }
    ensures out_after { out.new ≡ over at (separated separator ++ part.now) out.old }
{
    match separator {
        None => put_part(out, at, part),
        Some(byte) => {
            out[at] = byte;
            put_part(out, at + 1, part)
        }
    }
}

// The value of the name is written to the front of `out`. The lines from its first place on have all of it, and lines
// behind its last byte are not looked at.
fn put_value(s: &[u8], name: &[u8], value: Value, out: &mut [u8])
    requires whole_from { WholeFrom name.now s.now value.first }
    requires long_value { value.length ≡ length (value_for name.now (lines_of s.now)) }
    requires room { value.length ≤ length out.old }
    ensures { out.new ≡ over 0 (value_for name.now (lines_of s.now)) out.old }
{
    let mut next = value.first;
    let mut mine = false;
    let mut there = false;
    let mut at = 0;
    while at < value.length {
        let line = Line::new(line_at(s, next));
        let added = line.step(name, mine, there);
        at = put(out, at, added.separator, after(line.text, added.from));
        mine = added.mine;
        there = added.found;
        next = next + line.text.len() + 2;
    }
}

// The value of the name is written to the front of `out` where the lines are fields, one of them has the name, and
// there is room. What is handed back is as for `find`.
pub fn write_value(s: &[u8], name: &[u8], out: &mut [u8]) -> Result<Option<usize>, Refusal>
    ensures value { found_by result ≡ found_in name.now (lines_of s.now) }
    ensures refused { answer_of result ≡ refused_in (lines_of s.now) }
    ensures out_after { out.new ≡ written_in name.now (lines_of s.now) out.old }
{
    let Some(value) = search(s, name)? else {
        return Ok(None);
    };
    if value.length <= out.len() {
        put_value(s, name, value, out);
    }
    Ok(Some(value.length))
}
