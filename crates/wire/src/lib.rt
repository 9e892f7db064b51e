// Floor 1: numbers and headers as bytes. Every reader takes a part of a slice that starts at its own byte 0.
#![tactic(auto)]

ghost use Rattle.std.specs.Prelude.{◌≡◌, ◌≤◌, length, take, replicate};
ghost use Rattle.laws.specs.Bytes.{little};
ghost use Rattle.laws.specs.Parts.{copied};
ghost use Rattle.wire.specs.Header.{header_in, with_header, byte_of, kind_named};

// The types of messages, by their bytes.
#[derive(Clone, Copy, Debug, PartialEq, Eq, Hash)]
pub enum Kind {
    Ping = 0x00,
    Pong = 0x01,
    RouteUpdate = 0x30,
    Query = 0x80,
    Hit = 0x81,
}

// A byte that is no type of message.
#[derive(Clone, Copy, Debug, PartialEq, Eq, Hash)]
pub struct UnknownKind(pub u8);

impl From<Kind> for u8 {
    ghost from_gives = { λ kind byte. byte ≡ byte_of kind };

    fn from(kind: Kind) -> u8 {
        kind as u8
    }
}

impl TryFrom<u8> for Kind {
    type Error = UnknownKind;

    ghost try_from_gives = { λ byte outcome. outcome ≡ kind_named byte };

    fn try_from(byte: u8) -> Result<Kind, UnknownKind> {
        match byte {
            0x00 => Ok(Kind::Ping),
            0x01 => Ok(Kind::Pong),
            0x30 => Ok(Kind::RouteUpdate),
            0x80 => Ok(Kind::Query),
            0x81 => Ok(Kind::Hit),
            _ => Err(UnknownKind(byte)),
        }
    }
}

// How many bytes a header, the largest payload and the largest message have.
pub const HEADER_SIZE: usize = 23;

pub const LARGEST_PAYLOAD: usize = 4096;

pub const LARGEST_MESSAGE: usize = 4119;

// The header of a message: its number as two little-endian halves, type, TTL, Hops and the payload length.
#[repr(C)]
#[derive(Clone, Copy)]
pub struct Header {
    pub lo: u64,
    pub hi: u64,
    pub kind: u8,
    pub ttl: u8,
    pub hops: u8,
    pub size: u32,
}

// The first N bytes, and zero for each that is not there.
pub fn padded<const N: usize>(b: &[u8]) -> [u8; N]
    ensures { result ≡ copied b.now (replicate N 0) }
{
    let mut bytes = [0; N];
    copy_onto(b, &mut bytes);
    bytes
}

// The little-endian number of the first four bytes, or of those that are there.
pub fn little4(b: &[u8]) -> u32
    ensures { result ≡ little (take 4 b.now) }
{
    match b.first_chunk() {
        Some(bytes) => u32::from_le_bytes(*bytes),
        None => u32::from_le_bytes(padded(b)),
    }
}

// The header that these bytes are.
fn header_of(m: &[u8; HEADER_SIZE]) -> Header
    ensures { result ≡ header_in m.now }
{
    Header {
        lo: u64::from_le_bytes(m[..8].try_into().unwrap()),
        hi: u64::from_le_bytes(m[8..16].try_into().unwrap()),
        kind: m[16],
        ttl: m[17],
        hops: m[18],
        size: u32::from_le_bytes(m[19..].try_into().unwrap()),
    }
}

// The header that any bytes begin with: a byte that is not there counts 0.
pub fn read_header(m: &[u8]) -> Header
    ensures { result ≡ header_in m.now }
{
    match m.first_chunk() {
        Some(bytes) => header_of(bytes),
        None => header_of(&padded(m)),
    }
}

// Copies as many of the bytes as the part has room for to its front; the rest of the part stays.
pub fn copy_onto(src: &[u8], part: &mut [u8])
    ensures { part.new ≡ copied src.now part.old }
{
    let n = src.len().min(part.len());
    part[..n].copy_from_slice(&src[..n]);
}

// The header of a message whose payload has `size` bytes stands at the front of `out`, if it has room for one.
pub fn put_header(number: [u8; 16], kind: u8, ttl: u8, hops: u8, size: u32, out: &mut [u8])
    ensures { out.new ≡ with_header number kind ttl hops size out.old }
{
    if out.len() < HEADER_SIZE {
        return;
    }
    out[..16].copy_from_slice(&number);
    out[16..19].copy_from_slice(&[kind, ttl, hops]);
    out[19..23].copy_from_slice(&size.to_le_bytes());
}
