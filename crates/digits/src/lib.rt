// Floor 1: numbers in decimal.
#![tactic(auto)]

ghost use Rattle.std.specs.Prelude.{◌≡◌, ◌+◌, ◌%◌, ◌≤◌, length};
ghost use Rattle.digits.specs.Decimal.{decimal, digits_for};

// A number in ASCII digits: how many there are, and the digits at the front of five bytes, zero behind them.
#[derive(Clone, Copy)]
pub struct Digits {
    pub size: usize,
    pub bytes: [u8; 5],
}

// How many digits n has.
#[tactic(auto, using(crate::proofs::Sizes::sizes))]
pub fn size(n: u16) -> usize
    ensures { (result ≡ length (decimal n)) × (result ≤ 5) }
{
    match n {
        0..=9 => 1,
        10..=99 => 2,
        100..=999 => 3,
        1000..=9999 => 4,
        _ => 5,
    }
}

// The last digit of n in ASCII.
fn last_digit(n: u16) -> u8
    ensures { result ≡ 48 + n % 10 }
{
    b'0' + (n % 10) as u8
}

// The digits of n, which are found from the last to the first.
pub fn spell(n: u16) -> Digits
    ensures number { result ≡ digits_for n }
    ensures few { result.size ≤ 5 }
{
    let size = size(n);
    let mut bytes = [0u8; 5];
    let mut m = n;
    let mut i = size;
    while m >= 10 {
        i -= 1;
        bytes[i] = last_digit(m);
        m /= 10;
    }
    bytes[0] = last_digit(m);
    Digits { size, bytes }
}
