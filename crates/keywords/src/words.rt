// The keywords of a text, one after another.
ghost use Rattle.std.specs.Iterator.{YieldsFirstRef, item_count};
ghost use Rattle.keywords.specs.Keywords.{words_left};

use crate::cut::first_keyword;

// The keywords of what is left of a text, as the text has them.
#[derive(Clone, Copy)]
pub struct Keywords<'a> {
    pub(crate) rest: &'a [u8],
}

impl<'a> Iterator for Keywords<'a> {
    type Item = &'a [u8];

    ghost next_gives = { YieldsFirstRef words_left };

    ghost remaining = { item_count words_left };

    fn next(&mut self) -> Option<&'a [u8]> {
        let text = self.rest;
        let cut = first_keyword(text)?;
        self.rest = &text[cut.end..];
        Some(&text[cut.start..cut.end])
    }
}
