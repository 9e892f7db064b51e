// Floor 2: the updates that turn one route table into another, as messages. The messages, the answers of the writer and
// the round trip are the definitions of specs/, with laws in proofs/; the code that meets them is crate tablewriter.
#![tactic(auto)]

ghost use Rattle.std.specs.Prelude.{◌≡◌};
ghost use Rattle.tablemessages.specs.Writer.{written_by};

use answer::Refusal;

// What the writer answers, and how many bytes it wrote.
#[repr(C)]
#[derive(Clone, Copy)]
pub struct Written {
    pub answer: u8,
    pub written: usize,
}

impl From<Result<usize, Refusal>> for Written {
    ghost from_gives = { λ outcome written. written ≡ written_by outcome };

    fn from(outcome: Result<usize, Refusal>) -> Written {
        match outcome {
            Ok(written) => Written { answer: 0, written },
            Err(refusal) => Written {
                answer: u8::from(refusal),
                written: 0,
            },
        }
    }
}

// How a run is written: from an old table or from Infinity, in 4 bits or in 8, how much data in a message and how many
// messages.
#[derive(Clone, Copy)]
pub struct Plan {
    pub had: bool,
    pub infinity: u8,
    pub small: bool,
    pub size: usize,
    pub count: u8,
}
