// The vectors over the proved crates: a row is printed for each line of standard input, as docs/VECTORS.md says.
#![tactic(auto)]

mod calls;
mod keyword;
mod lines;
mod lists;
mod pairs;
mod print;
mod sessions;
mod updates;

use std::io;

fn main(rt: HostRuntime) -> io::Result<()> {
    let mut area = [0u8; lines::ROOM];
    let size = input::fill(&mut rt.reader(), &mut area)?;
    lines::all(&rt, &area[..size])
}
