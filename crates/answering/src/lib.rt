// Floor 5: the hit that a station writes for a query from its own names (RULES 25), as definitions: which names are chosen,
// what the call answers, and its bytes; the same in words. The code that meets it is in crate answerer.
#![tactic(auto)]

ghost use Rattle.std.specs.Prelude.{◌≡◌};
ghost use Rattle.answering.specs.Told.{written_by};

use answer::Refusal;

// A hit that was written: how many results it has, and how many bytes.
#[derive(Clone, Copy)]
pub struct WrittenHit {
    pub results: u8,
    pub size: usize,
}

// What a caller in C is told: the answer, and how many results and bytes were written, 0 where it is refused.
#[repr(C)]
#[derive(Clone, Copy)]
pub struct HitsWritten {
    pub answer: u8,
    pub results: u8,
    pub written: usize,
}

impl From<Result<WrittenHit, Refusal>> for HitsWritten {
    ghost from_gives = { λ outcome told. told ≡ written_by outcome };

    fn from(outcome: Result<WrittenHit, Refusal>) -> HitsWritten {
        match outcome {
            Ok(hit) => HitsWritten {
                answer: 0,
                results: hit.results,
                written: hit.size,
            },
            Err(refusal) => HitsWritten {
                answer: u8::from(refusal),
                results: 0,
                written: 0,
            },
        }
    }
}
