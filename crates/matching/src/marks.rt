// Marks at the places of kept keywords: which of them a name has.
ghost use Rattle.std.specs.Prelude.{◌≡◌, ◌<◌, length};
ghost use Rattle.keywords.specs.Keywords.{keywords_of};
ghost use Rattle.matching.specs.Matching.{is_among, matches};
ghost use Rattle.matching.specs.Kept.{key_at, Gathered, Marked};

use crate::kept::{Kept, LONGEST_TEXT};
use keywords::cut::keywords;

impl Kept<'_> {
    // Marks the place of each keyword of a name that is kept. Each is cut and looked up once.
    fn mark(&self, name: &[u8], marks: &mut [bool; LONGEST_TEXT])
        ensures { Marked (λ k. is_among k (keywords_of name.now))
            (key_at self.now.text.now self.now.spans) self.now.count marks.old marks.new }
    {
        for keyword in keywords(name) {
            if let Ok(place) = self.find(keyword) {
                marks[place] = true;
            }
        }
    }

    // A name has every keyword. What was marked before does not count.
    pub(crate) fn are_in(&self, name: &[u8], marks: &mut [bool; LONGEST_TEXT]) -> bool
        requires gathered { Gathered self.now.text.now self.now.spans self.now.count }
        requires some { 0 < self.now.count }
        ensures { (result ≡ matches self.now.text.now name.now) × (length marks.new ≡ 4096) }
    {
        marks[..self.count].fill(false);
        self.mark(name, marks);
        marks[..self.count].iter().all(|marked| *marked)
    }
}
