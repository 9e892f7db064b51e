// The ordered refusals of an arriving ping and of an arriving pong, each with its number in RULES 2.1.
ghost use Rattle.std.specs.Prelude.{◌≡◌};
ghost use Rattle.laws.specs.Tests.{first_of};
ghost use Rattle.answer.specs.Numbers.{answer_of};
ghost use Rattle.protocol.specs.Pings.{is_probe, ping_rules, pong_rules};

use crate::clock::elapsed_ms;
use answer::{Refusal, require};
use protocol::PONG_HOPS;
use wire::Header;

// TTL 1 with Hops 0 or 1 asks this station alone.
pub fn is_probe(h: Header) -> bool
    ensures { result ≡ is_probe h }
{
    h.ttl == 1 && h.hops <= 1
}

// A ping: TTL 0 is 8; one that is no probe is 13 less than a second after the last accepted one of its line.
pub fn ping_answer(pinged: bool, pingtime: u32, clock: u32, h: Header) -> Result<(), Refusal>
    ensures { answer_of result ≡ first_of (ping_rules pinged pingtime clock h) }
{
    require(h.ttl != 0, Refusal::BadTtlOrHops)?;
    require(
        is_probe(h) || !pinged || 1000 <= elapsed_ms(clock, pingtime),
        Refusal::PingTooSoon,
    )
}

// A pong: 6 for a payload of less than 14 bytes; 8 where TTL is 0 or Hops are above `PONG_HOPS`.
pub fn pong_answer(h: Header) -> Result<(), Refusal>
    ensures { answer_of result ≡ first_of (pong_rules h) }
{
    require(14 <= h.size, Refusal::BadPayload)?;
    require(0 < h.ttl && h.hops <= PONG_HOPS, Refusal::BadTtlOrHops)
}
