// Ten pongs are kept for each line; a new one takes the oldest's place.
ghost use Rattle.std.specs.Prelude.{◌≡◌};
ghost use Rattle.protocol.specs.Lines.{with_pong};
ghost use Rattle.pinging.specs.Filled.{pong_filled};

use protocol::{Line, Pong};
use wire::padded;

// The first 14 bytes of a pong's payload, with zeros for those that it lacks.
pub fn first_bytes(payload: &[u8]) -> [u8; 14]
    ensures { result ≡ pong_filled payload.now }
{
    padded(payload)
}

// The line with an arrived pong at the ring's next place.
pub fn store_pong(x: Line, bytes: [u8; 14], hops: u8, clock: u32) -> Line
    ensures { result ≡ with_pong x (record { bytes = bytes; hops = hops; clock = clock }) }
{
    let place = x.pongnext % 10;
    let mut pongs = x.pongs;
    pongs[place] = Pong { bytes, hops, clock };
    Line {
        pongs,
        pongcount: x.pongcount.min(9) + 1,
        pongnext: (place + 1) % 10,
        ..x
    }
}
