// The keywords of a query's text, each kept once and in their order, so that a word is found among them in few steps.
ghost use Rattle.std.specs.Prelude.{◌≡◌, false, map, ◌+◌, ◌≤◌, ◌<◌, length, take, drop, get_or, IfSome, IsTrue};
ghost use Rattle.ascii.specs.Text.{lower};
ghost use Rattle.keywords.specs.Keywords.{keywords_of};
ghost use Rattle.matching.specs.Matching.{is_among};
ghost use Rattle.matching.specs.Kept.{part_of, key_at, no_span, Rising, Sought, Joined, Gathered, Marked};

use crate::order::order;
use ascii::{after, front};
use keywords::cut::first_keyword;

// The longest text that is looked at. There are as many places for its keywords, more than it has.
pub(crate) const LONGEST_TEXT: usize = 4096;

// Where a keyword begins in the text, and how many bytes it has.
#[derive(Clone, Copy)]
pub(crate) struct Span {
    pub(crate) start: u16,
    pub(crate) size: u16,
}

// The bytes that a span tells of.
pub(crate) fn part_at(text: &[u8], span: Span) -> &[u8]
    ensures { result.now ≡ part_of text.now span }
{
    front(after(text, usize::from(span.start)), usize::from(span.size))
}

// The first `count` spans tell of keywords of the text, in their order.
#[derive(Drop)]
pub(crate) struct Kept<'a> {
    pub(crate) text: &'a [u8],
    pub(crate) spans: [Span; LONGEST_TEXT],
    pub(crate) count: usize,
    ghost short: { length text.now ≤ 4096 },
    ghost few: { count ≤ length text.now },
    ghost rising: { Rising (key_at text.now spans) count },
}

impl<'a> Kept<'a> {
    // The place of a word; where it is not kept, the place that it would have.
    pub(crate) fn find(&self, word: &[u8]) -> Result<usize, usize>
        ensures { Sought (key_at self.now.text.now self.now.spans) self.now.count (map lower word.now) result }
    {
        let text = self.text;
        self.spans[..self.count].binary_search_by(|span| order(part_at(text, *span), word))
    }

    // Keeps a keyword of the text, if it is not kept already.
    fn add(&mut self, start: usize, size: usize)
        requires { (self.old.count < length self.old.text.now) × (start + size ≤ length self.old.text.now) }
        ensures text { self.new.text.now ≡ self.old.text.now }
        ensures joined { Joined (key_at self.old.text.now self.old.spans) (key_at self.new.text.now self.new.spans)
            self.old.count (map lower (take size (drop start self.old.text.now))) self.new.count }
    {
        let end = start + size;
        if let Err(place) = self.find(&self.text[start..end]) {
            let count = self.count;
            self.spans[count] = Span {
                start: start as u16,
                size: size as u16,
            };
            self.spans[place..=count].rotate_right(1);
            self.count += 1;
        }
    }

    // None yet of the keywords of a text of 4,096 bytes at most.
    pub(crate) fn none_of(text: &'a [u8]) -> Kept<'a>
        requires { length text.now ≤ 4096 }
        ensures text { result.text.now ≡ text.now }
        ensures none { result.count ≡ 0 }
    {
        Kept {
            text,
            spans: [Span { start: 0, size: 0 }; LONGEST_TEXT],
            count: 0,
        }
    }

    // Keeps the keywords of the text. They are gathered where they stay: handed on whole, the places were copied.
    pub(crate) fn gather(&mut self)
        requires { self.old.count ≡ 0 }
        ensures text { self.new.text.now ≡ self.old.text.now }
        ensures gathered { Gathered self.old.text.now self.new.spans self.new.count }
    {
        let text = self.text;
        let mut at = 0;
        while let Some(cut) = first_keyword(&text[at..]) {
            self.add(at + cut.start, cut.end - cut.start);
            at += cut.end;
        }
    }
}
