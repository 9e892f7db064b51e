// Floor 3: which of the station's own names have every keyword of a query's text (RULES 25.7). The text's keywords are
// kept in order, each once. A quick test tells most names that do not match; the keywords of every other name are cut
// once and looked up among the kept ones.
#![tactic(auto)]

ghost use Rattle.std.specs.Prelude.{◌≡◌, ◌<◌, length};
ghost use Rattle.matching.specs.Matching.{matches, matching_places};
ghost use Rattle.matching.specs.Kept.{Gathered};
ghost use Rattle.matching.specs.Quick.{Telling};

use crate::kept::{Kept, LONGEST_TEXT};
use crate::quick::Sample;
use namearea::{MOST_NAMES, count_in, name_of, span_at};

mod kept;
mod marks;
mod order;
mod quick;

// What a name is asked for: keywords, one at least, and the sample of one of them.
#[derive(Clone, Copy)]
struct Asked<'a> {
    kept: &'a Kept<'a>,
    sample: Sample,
    ghost gathered: { Gathered kept.now.text.now kept.now.spans kept.now.count },
    ghost some: { 0 < kept.now.count },
    ghost telling: { Telling kept.now.text.now sample },
}

impl Asked<'_> {
    // A name has every keyword of the text. Most have not, as the sample tells, and are not cut.
    fn is_met_by(self, name: &[u8], marks: &mut [bool; LONGEST_TEXT]) -> bool
        ensures { (result ≡ matches self.entry.kept.now.text.now name.now) × (length marks.new ≡ 4096) }
    {
        self.sample.may_be_in(name) && self.kept.are_in(name, marks)
    }

    // The same of each name that is listed.
    fn places(self, area: &[u8]) -> [bool; MOST_NAMES]
        ensures { result ≡ matching_places self.entry.kept.now.text.now area.now }
    {
        let mut found = [false; MOST_NAMES];
        let mut marks = [false; LONGEST_TEXT];
        let listed = MOST_NAMES.min(count_in(area) as usize);
        for i in 0..listed {
            found[i] = self.is_met_by(name_of(area, span_at(area, i)), &mut marks);
        }
        found
    }
}

// For each place of the list whether its name has every keyword of the text. A text that is longer than a payload
// matches no name, and one without keywords none either.
pub fn matching_places(text: &[u8], area: &[u8]) -> [bool; 512]
    ensures { result ≡ matching_places text.now area.now }
{
    if LONGEST_TEXT < text.len() {
        return [false; MOST_NAMES];
    }
    let mut kept = Kept::none_of(text);
    kept.gather();
    match kept.sample() {
        None => [false; MOST_NAMES],
        Some(sample) => {
            let asked = Asked {
                kept: &kept,
                sample,
            };
            asked.places(area)
        }
    }
}
