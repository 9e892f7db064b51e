// What an arriving message does, but for the stores that make the state after it.
ghost use Rattle.std.specs.Prelude.{◌≡◌};
ghost use Rattle.answer.specs.Numbers.{number_of};
ghost use Rattle.protocol.specs.Outcomes.{only_to};
ghost use Rattle.station.specs.Actions.{quiet_report, quiet_action, aged_action};

use answer::Refusal;
use protocol::{Age, Line, Report};

// What the caller is told, the record of the message's line after it, whether its number is to be remembered, and
// whether the query with its number has had one hit more.
#[derive(Clone, Copy)]
pub struct Action {
    pub report: Report,
    pub line: Line,
    pub remember: bool,
    pub answered: bool,
}

// Answered, and nothing is used, sent, searched, delivered or handed up.
pub(crate) fn quiet(answer: u8) -> Report
    ensures { result ≡ quiet_report answer }
{
    Report {
        answer,
        ..Report::default()
    }
}

// The same, with this record of the line; nothing is remembered or counted.
pub(crate) fn quietly(answer: u8, line: Line) -> Action
    ensures { result ≡ quiet_action answer line }
{
    Action {
        report: quiet(answer),
        line,
        remember: false,
        answered: false,
    }
}

// Refused, with this age handed up.
pub(crate) fn refused(refusal: Refusal, line: Line, age: Age) -> Action
    ensures { result ≡ aged_action age (quiet_action (number_of refusal) line) }
{
    let answer = u8::from(refusal);
    Action {
        report: Report {
            age,
            ..quiet(answer)
        },
        ..quietly(answer, line)
    }
}

// The lines that a message goes to: line k alone, or none for 8 and more.
pub(crate) fn only_to(k: u8) -> [bool; 8]
    ensures { result ≡ only_to k }
{
    [0, 1, 2, 3, 4, 5, 6, 7].map(|line| line == k)
}
