// Handshake groups read and written.
ghost use Rattle.std.specs.Prelude.{◌≡◌, length};
ghost use Rattle.handshake.specs.Group.{read_group, ask_field, asked_out};
ghost use Rattle.handshake.specs.Tried.{group_tried};
ghost use Rattle.handshake.specs.Groups.{greeting_bytes, ok_bytes, busy_bytes, text_answer, busy_answer, wrote_of, area_of};
ghost use Rattle.xtry.specs.Writing.{pairs_in};

use handshake::{Asked, Group, TriedGroup, Wrote};
use xtry::Pairs;

// The kind, version and code of a group.
pub fn lunozhar_read_group(bytes: &[u8]) -> Group
    ensures { result ≡ read_group bytes.now }
{
    Group::from(handshake::read_group(bytes))
}

// The joined value of a group's field, written to the area.
pub fn lunozhar_read_field(bytes: &[u8], name: &[u8], value: &mut [u8]) -> Asked
    ensures result { result ≡ ask_field bytes.now name.now (length value.old) }
    ensures output { value.new ≡ asked_out bytes.now name.now value.old }
{
    Asked::from(handshake::field(bytes, name, value))
}

// The X-Try pairs of a group.
pub fn lunozhar_read_hosts(bytes: &[u8]) -> TriedGroup
    ensures { result ≡ group_tried bytes.now }
{
    TriedGroup::from(handshake::hosts::try_pairs(bytes))
}

// The greeting.
pub fn lunozhar_write_greeting(out: &mut [u8]) -> Wrote
    ensures result { result ≡ wrote_of (text_answer (length out.old) greeting_bytes) greeting_bytes }
    ensures output { out.new ≡ area_of (text_answer (length out.old) greeting_bytes) greeting_bytes out.old }
{
    Wrote::from(handshake::write::write_greeting(out))
}

// The reply that accepts.
pub fn lunozhar_write_ok(out: &mut [u8]) -> Wrote
    ensures result { result ≡ wrote_of (text_answer (length out.old) ok_bytes) ok_bytes }
    ensures output { out.new ≡ area_of (text_answer (length out.old) ok_bytes) ok_bytes out.old }
{
    Wrote::from(handshake::write::write_ok(out))
}

// The reply that refuses, with pairs to try.
pub fn lunozhar_write_busy(pairs: Pairs, out: &mut [u8]) -> Wrote
    ensures result { result ≡ wrote_of (busy_answer (length out.old) pairs) (busy_bytes (pairs_in pairs)) }
    ensures output { out.new ≡ area_of (busy_answer (length out.old) pairs) (busy_bytes (pairs_in pairs)) out.old }
{
    Wrote::from(handshake::write::write_busy(pairs, out))
}
