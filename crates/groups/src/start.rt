// The first line of a group.
ghost use Rattle.std.specs.Prelude.{◌≡◌, ◌+◌, cond};
ghost use Rattle.groups.specs.Start.{version_length, version_of, unless_empty, status_in, greeting_of, reply_of};
ghost use Rattle.groups.specs.Start.{start_of, start_by};

use ascii::{Decimal, after, byte_at, leading_number};

// A version at the front of a text: how long it is, and its two numbers.
#[derive(Clone, Copy, Debug, PartialEq, Eq)]
pub struct Version {
    pub length: usize,
    pub major: u32,
    pub minor: u32,
}

// What a first line that is understood says: the two numbers of its version, and the code of a reply.
#[derive(Clone, Copy, Debug, PartialEq, Eq)]
pub enum FirstLine {
    Greeting { major: u32, minor: u32 },
    Reply { major: u32, minor: u32, code: u32 },
}

// One to three digits on each side of a dot, and numbers of 0.6 or above.
#[tactic(auto, unfolding(crate::specs::Start::version_length))]
fn is_version(a: Decimal, dot: u8, b: Decimal) -> bool
    ensures { version_length a.count dot b.count a.value b.value ≡ cond result (a.count + 1 + b.count) 0 }
{
    matches!(a.count, 1..=3)
        && dot == b'.'
        && matches!(b.count, 1..=3)
        && (a.value >= 1 || b.value >= 6)
}

fn read_version(s: &[u8]) -> Option<Version>
    ensures { result ≡ unless_empty (version_of s.now) }
{
    let a = leading_number(s);
    let b = leading_number(after(s, a.count + 1));
    if !is_version(a, byte_at(s, a.count), b) {
        return None;
    }
    Some(Version {
        length: a.count + 1 + b.count,
        major: a.value,
        minor: b.value,
    })
}

// The code of a status: a space, three digits, and then nothing or a space and any text.
#[tactic(auto, unfolding(crate::specs::Start::status_ok))]
fn read_status(s: &[u8]) -> Option<u32>
    ensures { result ≡ status_in s.now }
{
    let code = leading_number(after(s, 1));
    let good = byte_at(s, 0) == b' ' && code.count == 3 && (s.len() <= 4 || byte_at(s, 4) == b' ');
    good.then_some(code.value)
}

// What stands behind `GNUTELLA CONNECT/`: a version and nothing more.
#[tactic(auto, unfolding(crate::specs::Start::greeting_from))]
fn read_greeting(s: &[u8]) -> Option<FirstLine>
    ensures { start_by result ≡ greeting_of s.now }
{
    let v = read_version(s)?;
    if v.length != s.len() {
        return None;
    }
    Some(FirstLine::Greeting {
        major: v.major,
        minor: v.minor,
    })
}

// What stands behind `GNUTELLA/`: a version with a status behind it.
#[tactic(auto, unfolding(crate::specs::Start::reply_from))]
fn read_reply(s: &[u8]) -> Option<FirstLine>
    ensures { start_by result ≡ reply_of s.now }
{
    let v = read_version(s)?;
    let code = read_status(after(s, v.length))?;
    Some(FirstLine::Reply {
        major: v.major,
        minor: v.minor,
        code,
    })
}

// The first line is a greeting or a reply.
pub fn read_start(line: &[u8]) -> Option<FirstLine>
    ensures { start_by result ≡ start_of line.now }
{
    if let Some(rest) = line.strip_prefix(b"GNUTELLA CONNECT/") {
        read_greeting(rest)
    } else if let Some(rest) = line.strip_prefix(b"GNUTELLA/") {
        read_reply(rest)
    } else {
        None
    }
}
