// The calls of a row on its station: every use of them is in this file.
ghost use Rattle.std.specs.Prelude.{◌≡◌, ◌⊎◌};
ghost use Rattle.protocol.specs.Calls.{unfound};
ghost use Rattle.protocol.specs.Queries.{usual_limit, infinity_written};
ghost use Rattle.relaying.specs.Calls.{told_by};

use keeper::Keeper;
use lunozhar::Number;
use protocol::{Finding, Own, Report};
use relaying::Made;

// By which line the last call brought bytes, and whether the message that was taken stands in the held area.
#[derive(Clone, Copy)]
pub(crate) struct Bringing {
    pub(crate) line: u32,
    pub(crate) within: bool,
}

// The station, what it says of itself, how much of a held area is lent, and what the last call told.
#[derive(Clone, Copy)]
pub(crate) struct Held {
    pub(crate) station: Keeper,
    pub(crate) own: Own,
    pub(crate) lent: usize,
    pub(crate) report: Report,
    pub(crate) bringing: Option<Bringing>,
}

// The report of a call that answers and does no more.
fn quiet(answer: u8) -> Report {
    Report {
        answer,
        ..Report::default()
    }
}

impl Held {
    // A fresh station over a route area of 32 bytes.
    pub(crate) fn started(calls: bool) -> Held {
        Held {
            station: Keeper::fresh(32),
            own: Own {
                port: 6346,
                address: [127, 0, 0, 1],
                files: 0,
                kilobytes: 0,
                calls,
            },
            lent: wire::LARGEST_MESSAGE,
            report: quiet(0),
            bringing: None,
        }
    }

    // A call has told this, and brought no bytes.
    fn told(&mut self, report: Report) {
        self.report = report;
        self.bringing = None;
    }

    pub(crate) fn open(&mut self, line: u32) {
        let answer = self.station.open(line);
        self.told(quiet(answer));
    }

    pub(crate) fn close(&mut self, line: u32) {
        let answer = self.station.close(line);
        self.told(quiet(answer));
    }

    pub(crate) fn message(
        &mut self,
        line: u32,
        clock: u32,
        message: &[u8],
        out: &mut [u8],
        route: &mut [u8],
    ) {
        let report = self
            .station
            .message(line, clock, self.own, message, out, route);
        self.told(report);
    }

    // Bytes as they come, with the held area of their line.
    pub(crate) fn feed(
        &mut self,
        line: u32,
        clock: u32,
        bytes: &[u8],
        held: &mut [u8],
        out: &mut [u8],
        route: &mut [u8],
    ) {
        let fed = self
            .station
            .feed(line, clock, self.own, bytes, held, out, route);
        self.report = fed.report;
        self.bringing = Some(Bringing {
            line,
            within: fed.within,
        });
    }

    pub(crate) fn ask(&mut self, number: Number, text: &[u8], out: &mut [u8], route: &[u8]) {
        let report = self.station.ask(number, text, out, route);
        self.told(report);
    }

    pub(crate) fn look_up(&self, number: Number) -> Finding
        ensures { (result.answer ≡ 0) ⊎ (result ≡ unfound result.answer) }
    {
        self.station.look_up(number)
    }

    // The table for a line is made, of the names of an area and the tables of the other lines.
    pub(crate) fn table_for(
        &self,
        line: u32,
        names: &[u8],
        size: u32,
        out: &mut [u8],
        route: &[u8],
    ) -> Made
        ensures { result ≡ told_by result.answer (infinity_written usual_limit) }
    {
        self.station.table_for(line, names, size, out, route)
    }
}
