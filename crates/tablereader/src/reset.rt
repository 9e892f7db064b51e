// A RESET as it must be, with its fields read.
ghost use Rattle.std.specs.Prelude.{◌≡◌, true, false, MatchResult};
ghost use Rattle.answer.specs.declared.Refusal.TheVariants.{BadUpdate};
ghost use Rattle.tables.specs.Updates.{good_reset, length_in, infinity_in};

use crate::bounds::{good_infinity, good_length};
use answer::Refusal;

// The length and the Infinity that the table is to have.
#[derive(Clone, Copy)]
pub(crate) struct Reset {
    pub length: u32,
    pub infinity: u8,
}

impl Reset {
    // The RESET that this payload is, on a part with room for so many entries.
    pub fn read(payload: &[u8], room: usize) -> Result<Reset, Refusal>
        ensures { MatchResult result
            (λ r. (good_reset room payload.now ≡ true) × (r.length ≡ length_in payload.now) × (r.infinity ≡ infinity_in payload.now))
            (λ e. (e ≡ BadUpdate) × (good_reset room payload.now ≡ false)) }
    {
        let [0, a, b, c, d, infinity] = payload else {
            return Err(Refusal::BadUpdate);
        };
        let length = u32::from_le_bytes([*a, *b, *c, *d]);
        if good_length(length) && length as usize <= room && good_infinity(*infinity) {
            Ok(Reset {
                length,
                infinity: *infinity,
            })
        } else {
            Err(Refusal::BadUpdate)
        }
    }
}
