// The lines that a query goes to.
ghost use Rattle.std.specs.Prelude.{◌≡◌, false, not, ◌&&◌, min, get_or};
ghost use Rattle.laws.specs.Tests.{any};
ghost use Rattle.tables.specs.Tables.{held_in};
ghost use Rattle.tables.specs.Admission.{stops};
ghost use Rattle.protocol.specs.Lines.{is_other, each_line};
ghost use Rattle.protocol.specs.Queries.{own_to, query_to};
ghost use Rattle.forwarding.specs.Passing.{held_of, left_by};

use keywords::cut::keywords;
use keywords::hash::hash;
use protocol::lines::is_other;
use tablereader::held::Held;
use tables::Table;

// Whether a message goes to any line.
pub fn any_line(to: [bool; 8]) -> bool
    ensures { result ≡ any (λ b. b) to }
{
    to.contains(&true)
}

// Whether a line is left among those that a query may go to, by one more of its keywords: its table does not stop it.
fn is_left(flag: bool, table: Table, part: &[u8], ttl: u8, hash: u32) -> bool
    ensures { result ≡ (flag && not (stops (held_in table part.now) ttl hash)) }
{
    flag && !Held { table, part }.stops(ttl, hash)
}

// The lines that one more keyword leaves. The parts of the area stand one after another; the last may be short or
// missing.
fn left_by(
    flags: [bool; 8],
    tables: [Table; 8],
    room: usize,
    route: &[u8],
    ttl: u8,
    hash: u32,
) -> [bool; 8]
    ensures { result ≡ left_by flags (held_of tables room route.now) ttl hash }
{
    let mut left = flags;
    let mut area = route;
    for k in 0..8 {
        let n = room.min(area.len());
        left[k] = is_left(flags[k], tables[k], &area[..n], ttl, hash);
        area = &area[n..];
    }
    left
}

// For each line whether it is open and lets a query with this text pass that is sent with this TTL. Each keyword is cut
// and hashed once.
pub fn passing(
    live: [bool; 8],
    tables: [Table; 8],
    room: usize,
    route: &[u8],
    text: &[u8],
    ttl: u8,
) -> [bool; 8]
    ensures { result ≡ own_to ttl (λ k. get_or live k false) (held_of tables room route.now) text.now }
{
    let mut flags = live;
    for keyword in keywords(text) {
        let left = left_by(flags, tables, room, route, ttl, hash(keyword));
        flags = left;
    }
    flags
}

// Line k is open, and another than this one.
fn is_open_other(line: u32, k: u32, live: bool) -> bool
    ensures { result ≡ (is_other line k && live) }
{
    is_other(line, k) && live
}

// The open lines but for this one.
fn open_others(live: [bool; 8], line: u32) -> [bool; 8]
    ensures { result ≡ each_line (λ k. is_other line k && get_or live k false) }
{
    let mut others = live;
    for k in 0..8 {
        others[k] = is_open_other(line, k as u32, live[k]);
    }
    others
}

// The lines that a query with this life and text goes on to that came by line l (RULES 7.5).
#[tactic(auto, using(crate::proofs::LineLaws::going_laws))]
pub fn going(
    live: [bool; 8],
    tables: [Table; 8],
    room: usize,
    route: &[u8],
    l: u32,
    life: u8,
    text: &[u8],
) -> [bool; 8]
    ensures { result ≡ query_to life l (λ k. get_or live k false) (held_of tables room route.now) text.now }
{
    if life < 2 {
        return [false; 8];
    }
    passing(open_others(live, l), tables, room, route, text, life - 1)
}
