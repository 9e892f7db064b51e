// `group LABEL BYTES`, `field LABEL NAME AREA BYTES`, `try LABEL BYTES` and `written LABEL WHAT AREA PAIRS`: every use
// of the handshake's crates.
use crate::print;
use handshake::{Asked, Group, TriedGroup, Wrote};
use rows::words;
use std::io;
use xtry::{Pair, Pairs};

pub(crate) fn group(rt: &impl Print, row: &[u8]) -> io::Result<()> {
    let g = Group::from(handshake::read_group(rows::word(row, 0, 0)));
    print!(rt;
        " {} {} {} {}.{} {}",
        g.answer, g.used, g.kind, g.major, g.minor, g.code
    )
}

pub(crate) fn field(rt: &impl Print, row: &[u8], out: &mut [u8]) -> io::Result<()> {
    let asked = Asked::from(handshake::field(
        rows::word(row, 0, 2),
        rows::word(row, 0, 0),
        words::front(&mut *out, rows::size(row, 0, 1)),
    ));
    print!(rt; " {} {}", asked.answer, asked.used)?;
    print::hexadecimal(rt, words::part(out, 0, asked.written))
}

fn pair(rt: &impl Print, p: &Pair) -> io::Result<()> {
    print::joined(rt, &p.address, b'.')?;
    print!(rt; ":{}", p.port)
}

pub(crate) fn try_hosts(rt: &impl Print, row: &[u8]) -> io::Result<()> {
    let tried = TriedGroup::from(handshake::hosts::try_pairs(rows::word(row, 0, 0)));
    let count = tried.pairs.count.min(32);
    print!(rt; " {} {}", tried.answer, tried.used)?;
    print::start(rt, count)?;
    print::separated(rt, &tried.pairs.pairs[..count], b',', |p| pair(rt, p))
}

// The pair whose six bytes these are: the address, and the port with its low byte first.
fn pair_of(six: &[u8]) -> Pair {
    let port = wire::little4(words::part(six, 4, 6));
    Pair {
        address: wire::little4(six).to_le_bytes(),
        port: (port % 65536) as u16,
    }
}

// The pairs of these bytes, of which 32 at most are kept; places behind them are zero.
fn pairs_of(bytes: &[u8]) -> Pairs {
    let mut pairs = [pair_of(&[]); 32];
    for (pair, six) in pairs.iter_mut().zip(bytes.chunks(6)) {
        *pair = pair_of(six);
    }
    Pairs {
        count: bytes.len() / 6,
        pairs,
    }
}

pub(crate) fn written(rt: &impl Print, row: &[u8], out: &mut [u8]) -> io::Result<()> {
    let area = words::front(&mut *out, rows::size(row, 0, 1));
    let wrote = Wrote::from(match rows::word(row, 0, 0) {
        b"greeting" => handshake::write::write_greeting(area),
        b"ok" => handshake::write::write_ok(area),
        _ => handshake::write::write_busy(pairs_of(rows::word(row, 0, 2)), area),
    });
    print::number(rt, wrote.answer)?;
    print::hexadecimal(rt, words::part(out, 0, wrote.written))
}
