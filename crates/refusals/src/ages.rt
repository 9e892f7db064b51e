// What a look-up tells, in the order of its refusals, and the ages that hits and repeated queries hand up.
ghost use Rattle.std.specs.Prelude.{◌≡◌, eqb, IfOk};
ghost use Rattle.protocol.specs.Memory.{no_age, age_after, pick_age, age_behind, remembered_in};
ghost use Rattle.protocol.specs.Hits.{hit_before};
ghost use Rattle.protocol.specs.Calls.{finding_in, finding_by};

use answer::{Refusal, ToAnswer, require};
use protocol::{Age, Known, Remembered};
use wire::Header;

// What a hit hands up: nothing is looked up where its payload is too short or it has no TTL.
pub fn hit_age<K: Known>(h: Header, known: K) -> Age
    ensures { result ≡ age_behind (hit_before h) (K.lookup known) }
{
    match known.remembered() {
        Some(query) if 27 <= h.size && h.ttl != 0 => Age::from(Some(query.after)),
        _ => Age::default(),
    }
}

// What a query hands up, arriving or own, that ends so: the repeat check finds its number.
pub fn repeat_age<A: ToAnswer, K: Known>(end: A, known: K) -> Age
    ensures { result ≡ pick_age (eqb (A.answer end) 9) (age_after (K.lookup known).after) no_age }
{
    if end.to_answer() == u8::from(Refusal::Repeated) {
        Age::from(Some(known.after()))
    } else {
        Age::default()
    }
}

// A look-up, given whether the state is in order, and what is known of the number: state, no such query.
pub fn look_up<K: Known>(order: bool, known: K) -> Result<Remembered, Refusal>
    ensures finding { finding_in result ≡ finding_by order (K.lookup known) }
    ensures query { IfOk result (λ q. remembered_in (K.lookup known) ≡ Some q) }
{
    require(order, Refusal::NotInOrder)?;
    known.remembered().ok_or(Refusal::NotFound)
}
