// Event files: their offsets, and the test of the whole file before anything is done.
ghost use Rattle.std.specs.Prelude.{◌≡◌, true, ◌+◌, ◌*◌, ◌<◌, ◌≤◌, length};
ghost use Rattle.laws.specs.Tests.{all};
ghost use Rattle.transcript.specs.Files.{word_at, count_of, offset_of, event_at, kind_of, count_from};
ghost use Rattle.transcript.specs.Files.{good_offsets, good_event, good_file};

use crate::events::Kind;

// The four-byte number at a place.
fn word_at(file: &[u8], at: usize) -> usize
    requires { at ≤ length file.now }
    ensures { (result ≡ word_at file.now at) × (result < 4294967296) }
{
    wire::little4(&file[at..]) as usize
}

// How many events the file says it has.
pub(crate) fn count(file: &[u8]) -> usize
    ensures { (result ≡ count_of file.now) × (result < 4294967296) }
{
    word_at(file, 0)
}

// Where event i begins.
fn offset(file: &[u8], i: usize) -> usize
    requires { 4 + 4 * i ≤ length file.now }
    ensures { (result ≡ offset_of file.now i) × (result < 4294967296) }
{
    word_at(file, 4 + 4 * i)
}

// The file is neither too long nor too short, and its first and last offsets are as they have to be.
#[tactic(auto, using(std::proofs::lemmas::Bool::Decides::nat_tests), unfolding(crate::specs::Files::good_offsets))]
fn good_offsets(file: &[u8]) -> bool
    ensures { result ≡ good_offsets file.now }
{
    let n = count(file);
    let start = 8 + 4 * n;
    (8..=32768).contains(&file.len())
        && start <= file.len()
        && offset(file, 0) == start
        && offset(file, n) == file.len()
}

// Event i is long enough, ends within the file and is of a kind that there is.
#[tactic(auto, using(std::proofs::lemmas::Bool::Decides::nat_tests), unfolding(crate::specs::Files::good_event))]
fn good_event(file: &[u8], i: usize) -> bool
    requires { 12 + 4 * i ≤ length file.now }
    ensures { result ≡ good_event file.now i }
{
    let from = offset(file, i);
    let to = offset(file, i + 1);
    from + 6 <= to && to <= file.len() && Kind::try_from(file[from]).is_ok()
}

// The bytes of event i, which is good.
pub(crate) fn event(file: &[u8], i: usize) -> &[u8]
    requires room { 12 + 4 * i ≤ length file.now }
    requires good { good_event file.now i ≡ true }
    ensures value { result.now ≡ event_at file.now i }
    ensures whole { 6 ≤ length result.now }
    ensures kind { kind_of result.now ≤ 2 }
{
    &file[offset(file, i)..offset(file, i + 1)]
}

// The first n events are good.
fn good_events(file: &[u8], n: usize) -> bool
    requires { 8 + 4 * n ≤ length file.now }
    ensures { result ≡ all (good_event file.now) (count_from 0 n) }
{
    (0..n).all(|i| good_event(file, i))
}

// The whole file is good.
pub(crate) fn good_file(file: &[u8]) -> bool
    ensures { result ≡ good_file file.now }
{
    good_offsets(file) && good_events(file, count(file))
}
