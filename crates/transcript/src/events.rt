// Events: their kinds, and the call that an event makes.
ghost use Rattle.std.specs.Prelude.{◌≡◌, ◌≤◌, length};
ghost use Rattle.keeper.specs.Kept.{kept_by};
ghost use Rattle.protocol.specs.Memory.{no_age};
ghost use Rattle.protocol.specs.Outcomes.{nobody};
ghost use Rattle.transcript.specs.Files.{kind_of};
ghost use Rattle.transcript.specs.Kinds.{Reads};
ghost use Rattle.transcript.specs.Text.{output_size, Answers, outcome_by, route_by};

use keeper::Keeper;
use protocol::{Age, Own, Report};

// The kinds of events, by an event's first byte.
#[derive(Clone, Copy, Debug, PartialEq, Eq)]
pub(crate) enum Kind {
    Open,
    Close,
    Message,
}

// A byte that names no kind.
#[derive(Clone, Copy, Debug, PartialEq, Eq)]
pub(crate) struct NoKind(pub(crate) u8);

impl TryFrom<u8> for Kind {
    type Error = NoKind;

    ghost try_from_gives = { Reads };

    fn try_from(byte: u8) -> Result<Kind, NoKind> {
        match byte {
            0 => Ok(Kind::Open),
            1 => Ok(Kind::Close),
            2 => Ok(Kind::Message),
            _ => Err(NoKind(byte)),
        }
    }
}

// What a row needs of a call: its answer, the lines sent to and the age handed up.
#[derive(Clone, Copy)]
pub(crate) struct Answered {
    pub(crate) answer: u8,
    pub(crate) to: [bool; 8],
    pub(crate) age: Age,
}

// What the station says of itself.
const OWN_PONG: Own = Own {
    port: 6346,
    address: [127, 0, 0, 1],
    files: 0,
    kilobytes: 0,
    calls: true,
};

// Of a call that sends nothing and hands nothing up.
fn quiet(answer: u8) -> Answered
    ensures { result ≡ record { answer = answer; to = nobody; age = no_age } }
{
    Answered {
        answer,
        to: [false; 8],
        age: Age::default(),
    }
}

// The event is acted on; a message is written to the output area, which only it uses.
pub(crate) fn act(station: &mut Keeper, event: &[u8], area: &mut [u8], route: &mut [u8]) -> Answered
    requires output { length area.old ≡ output_size }
    requires whole { 6 ≤ length event.now }
    requires kind { kind_of event.now ≤ 2 }
    ensures result { Answers (outcome_by (kept_by station.old) route.old event.now) result (kept_by station.new) }
    ensures after { route.new ≡ route_by (kept_by station.old) route.old event.now }
{
    let line = u32::from(event[1]);
    match Kind::try_from(event[0]) {
        Ok(Kind::Open) => quiet(station.open(line)),
        Ok(Kind::Close) => quiet(station.close(line)),
        Ok(Kind::Message) => {
            let clock = wire::little4(&event[2..]);
            let report = station.message(line, clock, OWN_PONG, &event[6..], area, route);
            let to = report.to;
            let age = report.age;
            Answered {
                answer: report.answer,
                to,
                age,
            }
        }
        Err(_) => unreachable!(),
    }
}
