// Closing a line: the queries that came by it are marked gone.
ghost use Rattle.std.specs.Prelude.{◌≡◌, map};
ghost use Rattle.protocol.specs.Memory.{left};

use protocol::GONE;

fn left_by(line: u8, asker: u8) -> u8
    ensures { result ≡ left line asker }
{
    if asker == line { GONE } else { asker }
}

// All places are marked, kept or not: only the kept ones are ever read.
pub fn leave(asker: &mut [u8], line: u8)
    ensures { asker.new ≡ map (left line) asker.old }
{
    for a in asker.iter_mut() {
        *a = left_by(line, *a);
    }
}
