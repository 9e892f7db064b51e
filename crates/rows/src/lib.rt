// The words of a line as bytes, put into an area as an event file is: how many there are, where each begins and the
// last one ends, and the bytes.
#![tactic(auto)]

mod decode;
pub mod words;

ghost use Rattle.std.specs.Prelude.{◌≡◌, ◌≤◌, ◌<◌, ◌%◌, length};
ghost use Rattle.rows.specs.Rows.{offset, word_at, number_at, more, decimal};

// The number that four bytes are, that many numbers on.
fn offset(row: &[u8], i: usize) -> usize
    ensures { result ≡ offset row.now i }
{
    wire::little4(ascii::after(row, i % 4096 * 4)) as usize
}

// How many words the row has.
pub fn count(row: &[u8]) -> usize
    ensures { (result ≡ offset row.now 0 % 4096) × (result < 4096) }
{
    offset(row, 0) % 4096
}

// The bytes of word j behind word k.
pub fn word(row: &[u8], k: usize, j: usize) -> &[u8]
    ensures { result.now ≡ word_at row.now k j }
{
    let i = k % 2048 + j % 16;
    words::part(row, offset(row, i + 1), offset(row, i + 2))
}

// A number with one digit more, modulo 2 to the power 32.
fn more(n: u32, digit: u8) -> u32
    ensures { result ≡ more n digit }
{
    n.wrapping_mul(10).wrapping_add(u32::from(digit % 16))
}

fn number_of(text: &[u8]) -> u32
    ensures { result ≡ decimal 0 text.now }
{
    let mut n = 0;
    for digit in text {
        n = more(n, *digit);
    }
    n
}

// The same word as a number in decimal.
pub fn number(row: &[u8], k: usize, j: usize) -> u32
    ensures { result ≡ number_at row.now k j }
{
    number_of(word(row, k, j))
}

pub fn size(row: &[u8], k: usize, j: usize) -> usize
    ensures { result ≡ number_at row.now k j }
{
    number(row, k, j) as usize
}

pub fn byte(row: &[u8], k: usize, j: usize) -> u8
    ensures { result ≡ number_at row.now k j % 256 }
{
    (number(row, k, j) % 256) as u8
}

// How many spaces the text has, one before each of its words; past 4,095 they count from 1 on.
fn spaces(text: &[u8]) -> usize
    ensures { result < 4096 }
{
    match text.iter().filter(|b| **b == b' ').count() {
        0 => 0,
        n => (n - 1) % 4095 + 1,
    }
}

// The bytes of each word of the text, and where each ends.
fn put_words(text: &[u8], area: &mut [u8], first: usize) -> usize {
    let mut end = first;
    let mut slot = 8;
    for word in text.split(|b| *b == b' ').skip(1) {
        end = decode::bytes(word, &mut *area, end);
        decode::put_number(&mut *area, slot, end);
        slot = slot % 16384 + 4;
    }
    end
}

// The row of a text with a space before each word; where it ends.
pub fn read(text: &[u8], area: &mut [u8]) -> usize
    ensures { result ≤ length area.old }
{
    let n = spaces(text);
    let first = 8 + 4 * n;
    decode::put_number(&mut *area, 0, n);
    decode::put_number(&mut *area, 4, first);
    let end = put_words(text, &mut *area, first);
    end.min(area.len())
}
