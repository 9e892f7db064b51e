// Names by their buckets, so that a name is compared with few others. A bucket is a number below 512 that a name's
// bytes give, and a tag is another: texts are compared only where the tags are the same.
ghost use Rattle.std.specs.Prelude.{◌≡◌, ℕ, ◌+◌, ◌-◌, ◌*◌, ◌/◌, ◌%◌, ◌≤◌, ◌<◌, List, length, get_or, set};
ghost use Rattle.namearea.specs.Area.{text_from, count_in, name_at};
ghost use Rattle.namearea.specs.Good.{same_text};
ghost use Rattle.names.specs.Chains.{word_of, spread, mixed, twin_of, last_twin, key_of, hash_of, bucket_in, tag_in};
ghost use Rattle.names.specs.Chains.{bucket_of, tag_of, told_of, Chained, Comparable, Walkable, Walked, ToldApart};

use ascii::after;
use namearea::{name_of, pair_at};
use wire::little4;

// How many numbers 32 bits have: a half of a word.
const HALF: u64 = 4294967296;

// The first eight bytes as a number; a byte that is not there counts 0.
fn word(bytes: &[u8]) -> u64
    ensures { result ≡ word_of bytes.now }
{
    u64::from(little4(bytes)) + HALF * u64::from(little4(after(bytes, 4)))
}

// The low half times a prime, and the high half.
fn spread(x: u64) -> u64
    ensures { result ≡ spread x }
{
    x % HALF * 2654435761 + x / HALF
}

// A key with one word more.
fn mix(key: u64, word: u64) -> u64
    ensures { result ≡ mixed key word }
{
    spread(key ^ word)
}

// Two words joined, the halves of the second with changed places.
fn twin(a: u64, b: u64) -> u64
    ensures { result ≡ twin_of a b }
{
    a ^ b.rotate_left(32)
}

// The last two words of a name: its last sixteen bytes; of fewer the first eight and the last eight, or all of them
// twice.
fn last_twin(name: &[u8]) -> u64
    ensures { result ≡ last_twin name.now }
{
    let end = name.len();
    if end < 8 {
        let w = word(name);
        return twin(w, w);
    }
    let from = end.saturating_sub(16);
    let to = from + 8;
    let last = end - 8;
    twin(word(&name[from..to]), word(&name[last..end]))
}

// The key of a name: its words, eight bytes each, two by two, mixed in their order. All but those of a short name are
// read of parts of just that length.
fn key(name: &[u8]) -> u64
    ensures { result ≡ key_of name.now }
{
    let mut n: u64 = 0;
    let mut rest = name;
    while 16 < rest.len() {
        n = mix(n, twin(word(&rest[..8]), word(&rest[8..16])));
        rest = &rest[16..];
    }
    mix(n, last_twin(name))
}

// The number from which a name's bucket and tag are read.
pub(crate) fn hash(name: &[u8]) -> u64
    ensures { result ≡ hash_of name.now }
{
    mix(key(name), 0)
}

// The bucket of a name with this hash, and its tag: other bits of it.
fn bucket(hash: u64) -> usize
    ensures { result ≡ bucket_in hash }
{
    (hash / HALF % 512) as usize
}

fn tag(hash: u64) -> u16
    ensures { result ≡ tag_in hash }
{
    (hash % 65536) as u16
}

// Chains of places: for each bucket one more than the place of its last name, for each place one more than the place
// of the name before it in its bucket, 0 for none, and for each place the tag of its name.
#[derive(Drop)]
pub(crate) struct Chains {
    heads: [u16; 512],
    links: [u16; 512],
    tags: [u16; 512],
}

impl Chains {
    // No name is chained.
    pub(crate) fn new() -> Chains
        ensures { (name : ℕ → List ℕ) → Chained name 0 result.heads result.links result.tags }
    {
        Chains {
            heads: [0; 512],
            links: [0; 512],
            tags: [0; 512],
        }
    }

    // This name, which has this tag, is the one at a place.
    fn is_at(&self, area: &[u8], place: usize, name: &[u8], tag: u16) -> bool
        requires text_from_in_bounds { text_from ≤ length area.now }
        requires comparable { Comparable (name_at area.now) self.now.tags place name.now tag }
        ensures { result ≡ same_text name.now (name_at area.now place) }
    {
        self.tags[place] == tag && name == name_of(area, pair_at(area, place))
    }

    // The place of this name, which has this tag, in the chain that begins at `from`. Inlined where names are chained,
    // with `find`: as a call for each of 512 names, row "name absent" takes 1.3 times as long.
    #[inline(always)]
    fn walk(&self, area: &[u8], from: usize, name: &[u8], tag: u16) -> Option<usize>
        requires text_from_in_bounds { text_from ≤ length area.now }
        requires walkable { Walkable (name_at area.now) self.now.links self.now.tags from name.now tag }
        ensures { Walked (name_at area.now) from name.now (told_of result) }
    {
        let mut at = from;
        while 0 < at {
            let place = at - 1;
            if self.is_at(area, place, name, tag) {
                return Some(place);
            }
            at = usize::from(self.links[place]);
        }
        None
    }

    // The place of this name, which has this hash, among those that are chained.
    #[inline(always)]
    pub(crate) fn find(&self, area: &[u8], name: &[u8], hash: u64) -> Option<usize>
        requires text_from_in_bounds { text_from ≤ length area.now }
        requires hashed { hash ≡ hash_of name.now }
        requires walkable { Walkable (name_at area.now) self.now.links self.now.tags
            (get_or self.now.heads (bucket_of name.now) 0) name.now (tag_of name.now) }
        ensures { Walked (name_at area.now) (get_or self.now.heads (bucket_of name.now) 0) name.now (told_of result) }
    {
        let first = usize::from(self.heads[bucket(hash)]);
        self.walk(area, first, name, tag(hash))
    }

    // The name at a place, which has this hash, becomes the last of its bucket.
    fn push(&mut self, place: usize, hash: u64)
        requires { place < 512 }
        ensures heads { self.new.heads ≡ set self.old.heads (bucket_in hash) (place + 1) }
        ensures links { self.new.links ≡ set self.old.links place (get_or self.old.heads (bucket_in hash) 0) }
        ensures tags { self.new.tags ≡ set self.old.tags place (tag_in hash) }
    {
        let b = bucket(hash);
        self.links[place] = self.heads[b];
        self.tags[place] = tag(hash);
        self.heads[b] = (place + 1) as u16;
    }

    // No two of the names listed are the same; where that is so, they are chained. No name is chained before.
    pub(crate) fn chain(&mut self, area: &[u8], count: usize) -> bool
        requires count_value { (count ≡ count_in area.now) × (count ≤ 512) × (4100 ≤ length area.now) }
        requires chained { Chained (name_at area.now) 0 self.old.heads self.old.links self.old.tags }
        ensures { ToldApart area.now result self.new.heads self.new.links self.new.tags }
    {
        for i in 0..count {
            let name = name_of(area, pair_at(area, i));
            let hash = hash(name);
            if self.find(area, name, hash).is_some() {
                return false;
            }
            self.push(i, hash);
        }
        true
    }
}
