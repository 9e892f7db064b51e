// A station that one value keeps: the ring of remembered queries, the room and the lines. Its calls are those of crate
// lunozhar, which are lent the pieces, and the record of a call's line is stored.
#![tactic(auto)]

ghost use Rattle.std.specs.Prelude.{◌≡◌, ◌%◌, length};
ghost use Rattle.protocol.specs.Memory.{number_in};
ghost use Rattle.protocol.specs.Lines.{line_in};
ghost use Rattle.protocol.specs.State.{with_line};
ghost use Rattle.protocol.specs.Outcomes.{terms_of};
ghost use Rattle.protocol.specs.Queries.{usual_limit};
ghost use Rattle.protocol.specs.Calls.{fresh, opening, closing, looking_up};
ghost use Rattle.receiving.specs.Feeding.{feed_outcome};
ghost use Rattle.relaying.specs.Calls.{table_for, table_out_for};
ghost use Rattle.station.specs.Calls.{MessageMet, OwnMet, Changed};
ghost use Rattle.station.specs.Feeding.{FeedMet};
ghost use Rattle.keeper.specs.Kept.{kept_by};

use lunozhar::calls::Fed;
use lunozhar::{Lines, Number, calls};
use protocol::{Finding, Line, Own, Report};
use relaying::Made;

#[derive(Clone, Copy)]
pub struct Keeper {
    pub lo: [u64; 512],
    pub hi: [u64; 512],
    pub asker: [u8; 512],
    pub hits: [u8; 512],
    pub count: usize,
    pub next: usize,
    pub room: usize,
    pub lines: Lines,
}

impl Keeper {
    // A fresh station over a route area of so many bytes.
    pub fn fresh(route_len: usize) -> Keeper
        ensures { kept_by result ≡ (fresh route_len).state }
    {
        let mut lo = [0; 512];
        let mut hi = [0; 512];
        let mut asker = [0; 512];
        let mut hits = [0; 512];
        let mut count = 0;
        let mut next = 0;
        let begun = calls::lunozhar_fresh_lent(
            &mut lo, &mut hi, &mut asker, &mut hits, &mut count, &mut next, route_len,
        );
        let at = begun.lines;
        let lines = Lines { at };
        Keeper {
            lo,
            hi,
            asker,
            hits,
            count,
            next,
            room: begun.room,
            lines,
        }
    }

    // The record of a line.
    pub fn line(&self, line: u32) -> Line
        ensures { result ≡ line_in self.now.lines.at (line % 8) }
    {
        self.lines.at[line as usize % 8]
    }

    // The record of a line is stored where it belongs.
    pub fn store(&mut self, line: u32, x: Line)
        ensures { kept_by self.new ≡ with_line (kept_by self.old) (line % 8) x }
    {
        self.lines.at[line as usize % 8] = x;
    }

    // A line is opened; the answer.
    pub fn open(&mut self, line: u32) -> u8
        ensures { Changed (opening (kept_by self.old) line) result (kept_by self.new) }
    {
        let change = calls::lunozhar_open_lent(
            &self.lo,
            &self.hi,
            &self.asker,
            &self.hits,
            self.count,
            self.next,
            self.room,
            self.lines,
            line,
        );
        self.lines.at[line as usize % 8] = change.line;
        change.answer
    }

    // A line is closed; the answer.
    pub fn close(&mut self, line: u32) -> u8
        ensures { Changed (closing (kept_by self.old) line) result (kept_by self.new) }
    {
        let change = calls::lunozhar_close_lent(
            &mut self.lo,
            &mut self.hi,
            &mut self.asker,
            &mut self.hits,
            self.count,
            self.next,
            self.room,
            self.lines,
            line,
        );
        self.lines.at[line as usize % 8] = change.line;
        change.answer
    }

    // An arriving message.
    pub fn message(
        &mut self,
        line: u32,
        clock: u32,
        own: Own,
        message: &[u8],
        out: &mut [u8],
        route: &mut [u8],
    ) -> Report
        ensures { let terms = terms_of clock own (length out.old) in
            MessageMet (kept_by self.old) line message.now terms route.old result (kept_by self.new)
            out.old out.new route.new }
    {
        let arrival = calls::lunozhar_message_lent(
            &mut self.lo,
            &mut self.hi,
            &mut self.asker,
            &mut self.hits,
            &mut self.count,
            &mut self.next,
            self.room,
            self.lines,
            line,
            clock,
            own,
            message,
            out,
            route,
        );
        self.lines.at[line as usize % 8] = arrival.line;
        arrival.report
    }

    // Bytes as a line brings them, with the held area of that line.
    pub fn feed(
        &mut self,
        line: u32,
        clock: u32,
        own: Own,
        bytes: &[u8],
        held: &mut [u8],
        out: &mut [u8],
        route: &mut [u8],
    ) -> Fed
        ensures { let terms = terms_of clock own (length out.old) in
            let fed = feed_outcome (kept_by self.old) line bytes.now held.old terms route.old in
            FeedMet fed result.report result.within result.waits (kept_by self.new) out.old out.new
            held.new route.new }
    {
        let fed = calls::lunozhar_feed_lent(
            &mut self.lo,
            &mut self.hi,
            &mut self.asker,
            &mut self.hits,
            &mut self.count,
            &mut self.next,
            self.room,
            self.lines,
            line,
            clock,
            own,
            bytes,
            held,
            out,
            route,
        );
        self.lines.at[line as usize % 8] = fed.line;
        fed
    }

    // A query of this station's own.
    pub fn ask(&mut self, number: Number, text: &[u8], out: &mut [u8], route: &[u8]) -> Report
        ensures { OwnMet (kept_by self.old) number.bytes text.now route.now result
            (kept_by self.new) out.old out.new }
    {
        calls::lunozhar_ask_lent(
            &mut self.lo,
            &mut self.hi,
            &mut self.asker,
            &mut self.hits,
            &mut self.count,
            &mut self.next,
            self.room,
            self.lines,
            number,
            text,
            out,
            route,
        )
    }

    // A number is looked up.
    pub fn look_up(&self, number: Number) -> Finding
        ensures { result ≡ looking_up (kept_by self.now) (number_in number.bytes) }
    {
        calls::lunozhar_look_up_lent(
            &self.lo,
            &self.hi,
            &self.asker,
            &self.hits,
            self.count,
            self.next,
            self.room,
            self.lines,
            number,
        )
    }

    // The table to send the neighbour of a line, of the names of an area and the tables of the other lines.
    pub fn table_for(
        &self,
        line: u32,
        names: &[u8],
        size: u32,
        out: &mut [u8],
        route: &[u8],
    ) -> Made
        ensures told { result ≡ table_for usual_limit (kept_by self.now) line names.now size
            (length out.old) (length route.now) }
        ensures bytes { out.new ≡ table_out_for usual_limit (kept_by self.now) line names.now size
            out.old route.now }
    {
        calls::lunozhar_table_for_lent(
            &self.lo,
            &self.hi,
            &self.asker,
            &self.hits,
            self.count,
            self.next,
            self.room,
            self.lines,
            line,
            names,
            size,
            out,
            route,
        )
    }
}
