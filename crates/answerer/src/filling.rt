// The results of a hit, one behind another: those of the names that were found, as many as fit.
ghost use Rattle.std.specs.Prelude.{◌≤◌, length};
ghost use Rattle.namearea.specs.Area.{most_names, text_from, count_in};
ghost use Rattle.answerer.specs.Filling.{Laid, filling_of};

use hits::writing::put_result;
use namearea::{count_in, name_of, pair_at};

// How many results a hit may have.
const MOST_RESULTS: u8 = 255;

// How many results were written, and how many bytes they have.
#[derive(Clone, Copy)]
pub(crate) struct Filled {
    pub results: u8,
    pub size: usize,
}

// The results of the names at the places that are found, in the order of the list, at the front of a part. The first
// that does not fit ends them.
pub(crate) fn put_results(
    found: &[bool; 512],
    names: &[u8],
    sizes: &[u32],
    part: &mut [u8],
) -> Filled
    requires { (count_in names.now ≤ most_names) × (count_in names.now ≤ length sizes.now)
        × (text_from ≤ length names.now) }
    ensures { Laid (filling_of found.now names.now sizes.now (length part.old))
        result.results result.size part.old part.new }
{
    let count = count_in(names) as usize;
    let mut results: u8 = 0;
    let mut size = 0;
    for i in 0..count {
        if !found[i] {
            continue;
        }
        if results == MOST_RESULTS {
            return Filled { results, size };
        }
        let name = name_of(names, pair_at(names, i));
        let Some(n) = put_result(i as u32, sizes[i], name, &mut part[size..]) else {
            return Filled { results, size };
        };
        results += 1;
        size += n;
    }
    Filled { results, size }
}
