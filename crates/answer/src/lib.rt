// Floor 1: why a call is refused, by name, and the number that RULES 2.1 gives each refusal.
#![tactic(auto)]

ghost use Rattle.std.specs.Prelude.{ℕ, ◌≡◌, cond};
ghost use Rattle.answer.specs.Numbers.{number_of, answer_of};

// The refusals; each has its number in RULES 2.1, where the table says when it is given.
#[derive(Clone, Copy, Debug, PartialEq, Eq, Hash)]
pub enum Refusal {
    NotInOrder = 1,
    BadArea = 2,
    BadLine = 3,
    NotWhole = 4,
    TooLong = 5,
    BadPayload = 6,
    UnknownType = 7,
    BadTtlOrHops = 8,
    Repeated = 9,
    NotFound = 10,
    AskerClosed = 11,
    HopsFull = 12,
    PingTooSoon = 13,
    BadUpdate = 14,
    OutOfTurn = 15,
    EntryOutOfRange = 16,
    BadHandshake = 17,
    NoGroupEnd = 18,
    Shut = 19,
    ListFull = 20,
    AnsweredEnough = 21,
}

impl From<Refusal> for u8 {
    ghost from_gives = { λ refusal number. number ≡ number_of refusal };

    fn from(refusal: Refusal) -> u8 {
        refusal as u8
    }
}

// The answer that an outcome comes to: 0 where the call was carried out, else the refusal's number.
pub fn answer<T: Copy>(outcome: Result<T, Refusal>) -> u8
    ensures { result ≡ answer_of outcome }
{
    match outcome {
        Ok(_) => 0,
        Err(refusal) => u8::from(refusal),
    }
}

// Refused so, unless this holds.
#[inline]
pub fn require(holds: bool, refusal: Refusal) -> Result<(), Refusal>
    ensures { result ≡ cond holds (Ok tt) (Err refusal) }
{
    if holds { Ok(()) } else { Err(refusal) }
}

// How a call ended, for a caller that has its outcome and for one that has the number of its answer alone.
pub trait ToAnswer: Copy {
    ghost answer: { Self → ℕ };

    fn to_answer(self) -> u8
        ensures { result ≡ answer self };
}

impl ToAnswer for Result<(), Refusal> {
    ghost answer = { answer_of };

    fn to_answer(self) -> u8 {
        answer(self)
    }
}

impl ToAnswer for u8 {
    ghost answer = { λ number. number };

    fn to_answer(self) -> u8 {
        self
    }
}
