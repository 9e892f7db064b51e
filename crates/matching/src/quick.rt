// A quick test of a name, made before it is cut: of most names it tells that they do not match. It looks for three
// bytes of one kept keyword, the first, the last and one half way, at their distances. A byte counts modulo 32, in
// which the two cases of a letter agree.
ghost use Rattle.std.specs.Prelude.{◌≡◌, false, [], ◌+◌, ◌≤◌, ◌<◌, length, take, Contains, MatchOption};
ghost use Rattle.matching.specs.Kept.{Gathered};
ghost use Rattle.matching.specs.Quick.{sample_of, Agrees, NoneIn, Nowhere, Telling, NoneMatches};

use crate::kept::{Kept, Span, part_at};

// How many places of a name are looked at at once.
const BLOCK: usize = 16;

// Three bytes of a word modulo 32, and how far the last of them is behind the first.
#[derive(Clone, Copy)]
pub(crate) struct Sample {
    pub(crate) end: usize,
    pub(crate) first: u8,
    pub(crate) middle: u8,
    pub(crate) last: u8,
}

impl Sample {
    // The sample of a word; none of no word.
    fn of(word: &[u8]) -> Option<Sample>
        ensures { MatchOption result (word.now ≡ []) (λ s. s ≡ sample_of word.now) }
    {
        let last = word.last()?;
        let end = word.len() - 1;
        Some(Sample {
            end,
            first: word[0] % 32,
            middle: word[end / 2] % 32,
            last: *last % 32,
        })
    }

    // The bytes of a name at a place agree with the sample.
    fn agrees_at(self, name: &[u8], p: usize) -> bool
        requires { p + self.end < length name.now }
        ensures { result ≡ false → Agrees self name.now p → ⊥ }
    {
        (name[p] % 32 == self.first)
            & (name[p + self.end / 2] % 32 == self.middle)
            & (name[p + self.end] % 32 == self.last)
    }

    // Those at one of so many places do. The loop has no way out, so that the compiler takes the places of a block all
    // at once.
    fn meets(self, name: &[u8], from: usize, count: usize) -> bool
        requires { from + count + self.end ≤ length name.now }
        ensures { result ≡ false → NoneIn self name.now from (from + count) }
    {
        let mut met = false;
        for i in from..from + count {
            met |= self.agrees_at(name, i);
        }
        met
    }

    // A name may have the word that the sample is of; where this is false it has not. Its places are gone through by
    // blocks, the last of which may overlap the one before.
    pub(crate) fn may_be_in(self, name: &[u8]) -> bool
        ensures { result ≡ false → Nowhere self name.now }
    {
        if name.len() <= self.end {
            return false;
        }
        let places = name.len() - self.end;
        if places < BLOCK {
            return self.meets(name, 0, places);
        }
        // `step_by` with `any` takes 1.3 times as long here, `windows` with `any` 7 times.
        let mut at = 0;
        while BLOCK < places - at {
            if self.meets(name, at, BLOCK) {
                return true;
            }
            at += BLOCK;
        }
        self.meets(name, places - BLOCK, BLOCK)
    }
}

impl Kept<'_> {
    // The span of the longest keyword that is kept, the first of those that are as long.
    fn longest(&self) -> Option<&Span>
        ensures { MatchOption result (self.now.count ≡ 0) (λ s. Contains (take self.now.count self.now.spans) s.now) }
    {
        self.spans[..self.count]
            .iter()
            .min_by_key(|span| u16::MAX - span.size)
    }

    // Its sample: few names have its bytes. None where none is kept: then no name matches.
    pub(crate) fn sample(&self) -> Option<Sample>
        requires { Gathered self.now.text.now self.now.spans self.now.count }
        ensures { MatchOption result (NoneMatches self.now.text.now)
            (λ s. (0 < self.now.count) × Telling self.now.text.now s) }
    {
        Sample::of(part_at(self.text, *self.longest()?))
    }
}
