// What a program reads, in an area of its own.
#![tactic(auto)]

ghost use Rattle.std.specs.Prelude.{◌≤◌, ◌<◌, IfOk, length, take};
ghost use Rattle.std.specs.Io.KnownBytes.{Consumes, IsAtEnd};

use std::io;
use std::io::Read;

// Reads until the area is full or the input ends; how many bytes were read, which stand at the front of the area.
pub fn fill<R: Read>(reader: &mut R, area: &mut [u8]) -> io::Result<usize>
    ensures within { IfOk result (λ n. n ≤ length area.new) }
    ensures front { IfOk result (λ n. Consumes (R.remaining reader.old) (R.remaining reader.new) (take n area.new)) }
    ensures all { IfOk result (λ n. n < length area.new → IsAtEnd (R.remaining reader.new)) }
{
    let mut size = 0;
    while size < area.len() {
        let n = reader.read(&mut area[size..])?;
        if n == 0 {
            return Ok(size);
        }
        size += n;
    }
    Ok(size)
}
