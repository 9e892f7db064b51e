// What a walk over the stored pongs of the eight lines reads. The counts, the next places and the rings are read off
// the lines once.
ghost use Rattle.std.specs.Prelude.{◌≡◌, ◌<◌, min, IfSome};
ghost use Rattle.std.specs.Option.{unwrap_or};
ghost use Rattle.pongrings.specs.Ring.{counts_in, nexts_in, rings_in, place_for, largest};

use protocol::lines::is_other;
use protocol::{Line, Pong};

// How many pongs each line keeps.
pub fn counts_in(lines: [Line; 8]) -> [usize; 8]
    ensures { result ≡ counts_in lines }
{
    lines.map(|x| x.pongcount)
}

// The next place of each line's ring.
pub fn nexts_in(lines: [Line; 8]) -> [usize; 8]
    ensures { result ≡ nexts_in lines }
{
    lines.map(|x| x.pongnext)
}

// The ring of each line. As `lines.map(|x| x.pongs)` the proof does not close: it stops at the ring of one line.
pub fn rings_in(lines: [Line; 8]) -> [[Pong; 10]; 8]
    ensures { result ≡ rings_in lines }
{
    let x0 = lines[0];
    let x1 = lines[1];
    let x2 = lines[2];
    let x3 = lines[3];
    let x4 = lines[4];
    let x5 = lines[5];
    let x6 = lines[6];
    let x7 = lines[7];
    let r0 = x0.pongs;
    let r1 = x1.pongs;
    let r2 = x2.pongs;
    let r3 = x3.pongs;
    let r4 = x4.pongs;
    let r5 = x5.pongs;
    let r6 = x6.pongs;
    let r7 = x7.pongs;
    [r0, r1, r2, r3, r4, r5, r6, r7]
}

// The largest of the eight, or 10 where that is more.
pub fn most_of(counts: [usize; 8]) -> usize
    ensures { result ≡ min 10 (largest counts) }
{
    let mut most = 0;
    for count in counts {
        most = most.max(count);
    }
    most.min(10)
}

// The place of line k's pong of this rank, if the walk for a ping from `line` finds one there.
pub fn place_for(line: u32, k: u32, count: usize, next: usize, rank: usize) -> Option<usize>
    ensures place { unwrap_or result 10 ≡ place_for line k count next rank }
    ensures within { IfSome result (λ place. place < 10) }
{
    if !is_other(line, k) || 10 < count || 10 <= next || count <= rank {
        return None;
    }
    if rank < next {
        return Some(next - 1 - rank);
    }
    Some(next + 9 - rank)
}
