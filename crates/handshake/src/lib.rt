// The handshake: reading a group of lines, asking it for a field or for hosts to try, and writing groups. Bytes behind
// a group are not looked at.
#![tactic(auto)]

pub mod hosts;
pub mod write;

ghost use Rattle.std.specs.Prelude.{◌≡◌, length, IfOk, IfErr};
ghost use Rattle.handshake.specs.Group.{Opened, NotOpened, group_by, read_group, asked_by, ask_field, asked_out};

use answer::Refusal;
use ascii::{Class, after, front, leading};
use fields::{find, write_value};
use groups::lines::{group_length, line_at};
use groups::start::{FirstLine, read_start};
use xtry::Pairs;

// The kinds of a group that is understood, as numbers of lunozhar_group of the C interface.
pub const GREETING: u8 = 1;

pub const REPLY: u8 = 2;

// A group that was read, lunozhar_group of the C interface. The answer is 0, or 4 (not whole), 17 (not understood) or
// 18 (no end in 4,096 bytes), with all else 0 then. `used` is the group's length; `code` is 0 for a greeting.
#[repr(C)]
#[derive(Clone, Copy)]
pub struct Group {
    pub answer: u8,
    pub used: usize,
    pub kind: u8,
    pub major: u32,
    pub minor: u32,
    pub code: u32,
}

// A field that was asked for, lunozhar_asked of the C interface. The answer is as for reading, or 10 (absent) or 2 (the
// area is short). `used` is the group's length for 0 and 10; `written` is the value's length for 0.
#[repr(C)]
#[derive(Clone, Copy)]
pub struct Asked {
    pub answer: u8,
    pub used: usize,
    pub written: usize,
}

// What asking a group for its hosts gives, lunozhar_hosts of the C interface: `used` is the group's length where the
// group was understood.
#[repr(C)]
#[derive(Clone, Copy)]
pub struct TriedGroup {
    pub answer: u8,
    pub used: usize,
    pub pairs: Pairs,
}

// What writing a group gives, lunozhar_written of the C interface: the answer (RULES 2.1), and how many bytes were
// written (none where it is not 0).
#[repr(C)]
#[derive(Clone, Copy)]
pub struct Wrote {
    pub answer: u8,
    pub written: usize,
}

// A group that was understood: its length, and what its first line says.
#[derive(Clone, Copy, Debug, PartialEq, Eq)]
pub struct GroupRead {
    pub used: usize,
    pub start: FirstLine,
}

// A group that was understood and asked for a field: its length, and that of the value, where one of its fields has
// the name.
#[derive(Clone, Copy, Debug, PartialEq, Eq)]
pub struct FieldRead {
    pub used: usize,
    pub written: Option<usize>,
}

impl From<Result<GroupRead, Refusal>> for Group {
    ghost from_gives = { λ read group. group ≡ group_by read };

    fn from(read: Result<GroupRead, Refusal>) -> Group {
        match read {
            Ok(GroupRead { used, start }) => match start {
                FirstLine::Greeting { major, minor } => Group {
                    answer: 0,
                    used,
                    kind: GREETING,
                    major,
                    minor,
                    code: 0,
                },
                FirstLine::Reply { major, minor, code } => Group {
                    answer: 0,
                    used,
                    kind: REPLY,
                    major,
                    minor,
                    code,
                },
            },
            Err(refusal) => Group {
                answer: u8::from(refusal),
                used: 0,
                kind: 0,
                major: 0,
                minor: 0,
                code: 0,
            },
        }
    }
}

impl From<Result<FieldRead, Refusal>> for Asked {
    ghost from_gives = { λ read asked. asked ≡ asked_by read };

    fn from(read: Result<FieldRead, Refusal>) -> Asked {
        match read {
            Ok(FieldRead { used, written }) => match written {
                Some(written) => Asked {
                    answer: 0,
                    used,
                    written,
                },
                None => Asked {
                    answer: u8::from(Refusal::NotFound),
                    used,
                    written: 0,
                },
            },
            Err(refusal) => Asked {
                answer: u8::from(refusal),
                used: 0,
                written: 0,
            },
        }
    }
}

// A group whose first line is understood: its length, what that line says, and what stands behind it.
#[derive(Clone, Copy)]
struct Opening<'a> {
    used: usize,
    start: FirstLine,
    fields: &'a [u8],
}

// The first line of the group at the front of the bytes.
fn open_group(bytes: &[u8]) -> Result<Opening<'_>, Refusal>
    ensures opened { IfOk result (λ group. Opened bytes.now group) }
    ensures refused { IfErr result (λ refusal. NotOpened bytes.now refusal) }
{
    let Some(used) = group_length(bytes) else {
        return Err(if bytes.len() < 4096 {
            Refusal::NotWhole
        } else {
            Refusal::NoGroupEnd
        });
    };
    let lines = front(bytes, used - 2);
    let first = line_at(lines, 0);
    if leading(first, Class::Text) != first.len() {
        return Err(Refusal::BadHandshake);
    }
    let Some(start) = read_start(first) else {
        return Err(Refusal::BadHandshake);
    };
    Ok(Opening {
        used,
        start,
        fields: after(lines, first.len() + 2),
    })
}

// Reads the group at the front of the bytes. No field is asked for: none has an empty name.
pub fn read_group(bytes: &[u8]) -> Result<GroupRead, Refusal>
    ensures { group_by result ≡ read_group bytes.now }
{
    let group = open_group(bytes)?;
    find(group.fields, b"")?;
    Ok(GroupRead {
        used: group.used,
        start: group.start,
    })
}

// Writes the value of a name to the front of `out`: all values of the name in the group at the front of the bytes, with
// commas between them. `out` stays as it is where no field has the name, and after a refusal.
pub fn field(bytes: &[u8], name: &[u8], out: &mut [u8]) -> Result<FieldRead, Refusal>
    ensures value { asked_by result ≡ ask_field bytes.now name.now (length out.old) }
    ensures out_after { out.new ≡ asked_out bytes.now name.now out.old }
{
    let group = open_group(bytes)?;
    let room = out.len();
    let found = write_value(group.fields, name, out)?;
    if let Some(length) = found {
        if room < length {
            return Err(Refusal::BadArea);
        }
    }
    Ok(FieldRead {
        used: group.used,
        written: found,
    })
}
