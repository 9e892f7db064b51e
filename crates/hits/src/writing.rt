// The parts of a hit's payload written.
ghost use Rattle.std.specs.Prelude.{◌≡◌, cond, ◌+◌, leb, length, Some, None};
ghost use Rattle.hits.specs.Results.{without_extension};
ghost use Rattle.hits.specs.Writing.{head_into, result_into};

use crate::reading::HEAD_SIZE;

// The station that answers: where it takes calls, how fast its line is, and its mark.
#[repr(C)]
#[derive(Clone, Copy)]
pub struct Responder {
    pub port: u16,
    pub address: [u8; 4],
    pub speed: u32,
    pub mark: [u8; 16],
}

// A result with an empty extension, at the front of a part. Tells how many bytes it has, and writes nothing where there
// is no room for it.
pub fn put_result(index: u32, size: u32, name: &[u8], part: &mut [u8]) -> Option<usize>
    ensures count { result ≡ cond (leb (10 + length name.now) (length part.old)) (Some (10 + length name.now)) None }
    ensures bytes { part.new ≡ result_into (without_extension index size name.now) part.old }
{
    let n = name.len();
    if part.len() < 10 || part.len() - 10 < n {
        return None;
    }
    part[..4].copy_from_slice(&index.to_le_bytes());
    part[4..8].copy_from_slice(&size.to_le_bytes());
    part[8..8 + n].copy_from_slice(name);
    part[8 + n..10 + n].copy_from_slice(&[0, 0]);
    Some(10 + n)
}

// What stands before the results, at the front of a part: their number, port, address and speed. A part without room for
// it stays as it is.
pub fn put_head(results: u8, from: Responder, part: &mut [u8])
    ensures { part.new ≡ head_into results from part.old }
{
    if part.len() < HEAD_SIZE {
        return;
    }
    let address = from.address;
    part[0] = results;
    part[1..3].copy_from_slice(&from.port.to_le_bytes());
    part[3..7].copy_from_slice(&address);
    part[7..11].copy_from_slice(&from.speed.to_le_bytes());
}
