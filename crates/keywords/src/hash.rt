// The hash of a keyword and its place in a table.
ghost use Rattle.std.specs.Prelude.{◌-◌, ◌/◌, ◌^◌, ◌≡◌, [], ◌∷◌, map, take};
ghost use Rattle.laws.specs.Bytes.{little};
ghost use Rattle.ascii.specs.Text.{lower};
ghost use Rattle.keywords.specs.Hash.{word, hash_of, place_of, scaled};
ghost use Rattle.keywords.specs.Folding.{folded, lowered};

use ascii::byte_at;

// The highest bit of each byte of a chunk.
const HIGHEST: u32 = 0x80808080;

// Four bytes as one number, the first of them lowest. They are joined in pairs: so the compiler makes vectors of the
// loop over chunks, which it does not where they are joined one after the other.
fn four(a: u8, b: u8, c: u8, d: u8) -> u32
    ensures { result ≡ little (a ∷ b ∷ c ∷ d ∷ []) }
{
    ((a as u32) | ((b as u32) << 8)) | (((c as u32) << 16) | ((d as u32) << 24))
}

// The chunk at the front of a keyword: its first four bytes, with zeros for those that are not there.
fn chunk(keyword: &[u8]) -> u32
    ensures { result ≡ little (take 4 keyword.now) }
{
    four(
        byte_at(keyword, 0),
        byte_at(keyword, 1),
        byte_at(keyword, 2),
        byte_at(keyword, 3),
    )
}

// The capitals of a chunk: the highest bit of each byte that is a letter A to Z is set; the other bits mean nothing.
// A byte's own highest bit is set first, so that neither difference borrows from the next byte. It stays set in the
// one from A on, in the other past Z: for a letter the two differ. A byte that had it from the start is no letter.
fn capitals(chunk: u32) -> u32
    ensures { folded chunk result ≡ lowered chunk }
{
    let guarded = chunk | HIGHEST;
    let from_a = guarded - 0x41414141;
    let past_z = guarded - 0x5B5B5B5B;
    (from_a ^ past_z) & (chunk ^ 0xFFFFFFFF)
}

// A chunk, or chunks joined, with the case of the marked bytes changed.
fn folded(chunk: u32, marks: u32) -> u32
    ensures { result ≡ folded chunk marks }
{
    chunk ^ ((marks & HIGHEST) >> 2)
}

// The chunks of a keyword in lower case, joined by exclusive or, the short tail last. Chunks and the marks of their
// capitals are joined each by themselves, so that all are put into lower case at once, after the loop.
fn joined(keyword: &[u8]) -> u32
    ensures { result ≡ word (map lower keyword.now) }
{
    let mut chunks: u32 = 0;
    let mut marks: u32 = 0;
    let mut rest = keyword;
    while 4 <= rest.len() {
        let next = chunk(rest);
        chunks = chunks ^ next;
        marks = marks ^ capitals(next);
        rest = &rest[4..];
    }
    let tail = chunk(rest);
    folded(chunks ^ tail, marks ^ capitals(tail))
}

// The hash, of which a table of any length takes what it needs.
pub fn hash(keyword: &[u8]) -> u32
    ensures { result ≡ hash_of keyword.now }
{
    (((joined(keyword) as u64) * 0x4F1BBCDC) % 4294967296) as u32
}

// The top bits of a hash, all of it from 32 bits on.
fn top(hash: u32, bits: u32) -> u32
    ensures { result ≡ hash / 2 ^ (32 - bits) }
{
    if bits == 0 {
        return 0;
    }
    if 32 <= bits {
        return hash;
    }
    hash >> (32 - bits)
}

// The place of a keyword in a table of 2 to the power `bits` entries.
pub fn place(keyword: &[u8], bits: u32) -> u32
    ensures { result ≡ place_of bits keyword.now }
{
    top(hash(keyword), bits)
}

// The place of a hash in a table of any length.
pub fn scaled_place(hash: u32, length: u32) -> u32
    ensures { result ≡ scaled length hash }
{
    (((hash as u64) * (length as u64)) / 4294967296) as u32
}
