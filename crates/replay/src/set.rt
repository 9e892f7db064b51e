// A station whose ring or lines are set by hand, so that its state can be out of order.
use crate::calls::Held;
use crate::events::Event;
use keeper::Keeper;
use protocol::{Line, Pending, Pong};
use tables::Table;

// `kept I NUMBER ASKER COUNT NEXT`: the low half of the number at a place, its high half being 0, its asker, and the
// ring's count and next place
fn keep(station: &mut Keeper, row: &[u8], k: usize) {
    let i = rows::size(row, k, 1) % 512;
    station.lo[i] = u64::from(rows::number(row, k, 2));
    station.hi[i] = 0;
    station.asker[i] = rows::byte(row, k, 3);
    station.count = rows::size(row, k, 4);
    station.next = rows::size(row, k, 5);
}

// `fill ASKER`: 512 remembered queries of this asker, the oldest with the number 0 and the newest with 511
fn fill(station: &mut Keeper, who: u8) {
    station.lo = std::array::from_fn(|i| i as u64);
    station.hi = [0; 512];
    station.asker = [who; 512];
    station.hits = [0; 512];
    station.count = 512;
    station.next = 0;
}

// Ten pongs with Hops 0, but for the one at this place.
fn pongs(i: usize, hops: u8) -> [Pong; 10] {
    let mut all = [Pong {
        bytes: [0; 14],
        hops: 0,
        clock: 0,
    }; 10];
    all[i % 10].hops = hops;
    all
}

// The table that the words from the eighth on are.
fn table(row: &[u8], k: usize) -> Table {
    Table {
        mark: rows::byte(row, k, 7),
        length: rows::number(row, k, 8),
        infinity: rows::byte(row, k, 9),
        nextplace: rows::byte(row, k, 10),
        runsize: rows::byte(row, k, 11),
        runbits: rows::byte(row, k, 12),
        nextentry: rows::number(row, k, 13),
    }
}

// `line OPEN PINGED PONGS NEXT I HOPS MARK LENGTH INFINITY PLACE SIZE BITS AT`: line 2, with the Hops of the pong at
// place I
fn line_of(row: &[u8], k: usize) -> Line {
    Line {
        live: rows::byte(row, k, 1) != 0,
        pinged: rows::byte(row, k, 2) != 0,
        pingtime: 0,
        pongcount: rows::size(row, k, 3),
        pongnext: rows::size(row, k, 4),
        pongs: pongs(rows::size(row, k, 5), rows::byte(row, k, 6)),
        table: table(row, k),
        pending: Pending {
            count: 0,
            shut: false,
        },
    }
}

// `pending LINE COUNT SHUT`: how many bytes are held of a line, and whether it is shut
fn pend(station: &mut Keeper, row: &[u8], k: usize) {
    let line = rows::number(row, k, 1);
    let pending = Pending {
        count: (rows::number(row, k, 2) % 65536) as u16,
        shut: rows::number(row, k, 3) != 0,
    };
    station.store(
        line,
        Line {
            pending,
            ..station.line(line)
        },
    );
}

// `table LINE MARK LENGTH INFINITY BYTES`: the table of a line, between runs, and bytes in the route area from where
// the line's part begins, for rooms below 65,536 and as far as the area goes
fn lay(station: &mut Keeper, row: &[u8], k: usize, route: &mut [u8]) {
    let line = rows::number(row, k, 1);
    let table = Table {
        mark: rows::byte(row, k, 2),
        length: rows::number(row, k, 3),
        infinity: rows::byte(row, k, 4),
        nextplace: 1,
        runsize: 0,
        runbits: 0,
        nextentry: 0,
    };
    station.store(
        line,
        Line {
            table,
            ..station.line(line)
        },
    );
    let at = station.room % 65536 * (line as usize % 8);
    if at < route.len() {
        wire::copy_onto(rows::word(row, k, 5), &mut route[at..]);
    }
}

// An event that is no call.
pub(crate) fn by_hand(w: &mut Held, event: Event, row: &[u8], k: usize, route: &mut [u8]) {
    match event {
        Event::Kept => keep(&mut w.station, row, k),
        Event::Line => w.station.store(2, line_of(row, k)),
        Event::Fill => fill(&mut w.station, rows::byte(row, k, 1)),
        Event::Pending => pend(&mut w.station, row, k),
        Event::Held => w.lent = rows::size(row, k, 1),
        Event::Room => w.station.room = rows::size(row, k, 1),
        Event::Table => lay(&mut w.station, row, k, route),
        // `hits I N`: the count of hits at a place
        Event::Hits => w.station.hits[rows::size(row, k, 1) % 512] = rows::byte(row, k, 2),
        _ => {}
    }
}
