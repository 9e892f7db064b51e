// A PATCH as it must be, with its fields read.
ghost use Rattle.std.specs.Prelude.{◌≡◌, true, false, MatchResult};
ghost use Rattle.answer.specs.declared.Refusal.TheVariants.{BadUpdate};
ghost use Rattle.tables.specs.Updates.{good_patch};
ghost use Rattle.tablereader.specs.Patches.{patch_of};

use crate::fields::good_bits;
use answer::Refusal;

// Its place in the run, the run's size, the bits of a number, and the bytes of its numbers.
#[derive(Clone, Copy)]
pub(crate) struct Patch<'a> {
    pub place: u8,
    pub size: u8,
    pub bits: u8,
    pub bytes: &'a [u8],
    ghost good: { good_patch (patch_of place size bits bytes.now) ≡ true },
}

impl<'a> Patch<'a> {
    ghost use Rattle.tablereader.specs.Payloads.{payload_of};

    // The PATCH that this payload is.
    pub fn read(payload: &'a [u8]) -> Result<Patch<'a>, Refusal>
        ensures { MatchResult result
            (λ q. payload_of q ≡ payload.now)
            (λ e. (e ≡ BadUpdate) × (good_patch payload.now ≡ false)) }
    {
        match payload {
            [1, place, size, 0, bits, bytes @ ..]
                if 1 <= *place && *place <= *size && good_bits(*bits) => {
                Ok(Patch {
                    place: *place,
                    size: *size,
                    bits: *bits,
                    bytes,
                })
            }
            _ => Err(Refusal::BadUpdate),
        }
    }
}
