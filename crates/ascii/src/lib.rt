// Floor 1: bytes as text: classes of bytes and runs of them, digits, and parts of a text.
#![tactic(auto)]

ghost use Rattle.std.specs.Prelude.{◌≡◌, ◌≤◌, length, get_or, take, drop};
ghost use Rattle.ascii.specs.Text.{is_blank, is_name, is_text, is_digit, class_numbered, in_class, leading};
ghost use Rattle.laws.specs.Text.{until_zero};
ghost use Rattle.ascii.specs.Text.{digit_of, decimal_from, number_of};

// The classes of bytes: blanks, bytes of a name, bytes of a line, digits.
#[derive(Clone, Copy, Debug, PartialEq, Eq, Hash)]
pub enum Class {
    Blank,
    Name,
    Text,
    Digit,
}

pub fn is_blank(b: u8) -> bool
    ensures { result ≡ is_blank b }
{
    matches!(b, b' ' | b'\t')
}

fn is_name(b: u8) -> bool
    ensures { result ≡ is_name b }
{
    !matches!(b, b' ' | b'\t' | b':')
}

pub fn is_text(b: u8) -> bool
    ensures { result ≡ is_text b }
{
    !matches!(b, b'\r' | b'\n')
}

// A class of bytes, for a caller that has the class and for one that has a byte for it: 0 for blanks, 1 for bytes of a
// name, 2 for bytes of a line, and any other for digits.
pub trait ToClass {
    ghost use Rattle.ascii.specs.declared.Class.{Class};

    ghost class: { Self → Class };

    fn to_class(self) -> Class
        ensures { result ≡ class self };
}

impl ToClass for Class {
    ghost class = { λ class. class };

    fn to_class(self) -> Class {
        self
    }
}

impl ToClass for u8 {
    ghost class = { class_numbered };

    fn to_class(self) -> Class {
        match self {
            0 => Class::Blank,
            1 => Class::Name,
            2 => Class::Text,
            _ => Class::Digit,
        }
    }
}

fn in_class(class: Class, b: u8) -> bool
    ensures { result ≡ in_class class b }
{
    match class {
        Class::Blank => is_blank(b),
        Class::Name => is_name(b),
        Class::Text => is_text(b),
        Class::Digit => b.is_ascii_digit(),
    }
}

// How many bytes at the front are of the class.
pub fn leading<C: ToClass>(s: &[u8], class: C) -> usize
    ensures { result ≡ leading (in_class (C.class class)) s.now }
{
    let class = class.to_class();
    s.iter().take_while(|b| in_class(class, **b)).count()
}

// How many bytes stand before the first zero byte, or are there if none is zero.
pub fn until_zero(part: &[u8]) -> usize
    ensures { result ≡ length (until_zero part.now) }
{
    part.iter().take_while(|b| **b != 0).count()
}

// The bytes from place `at` on: none where the text is not so long.
pub fn after(s: &[u8], at: usize) -> &[u8]
    ensures { result.now ≡ drop at s.now }
{
    &s[at.min(s.len())..]
}

// The first n bytes: all of them where the text is not so long.
pub fn front(s: &[u8], n: usize) -> &[u8]
    ensures { result.now ≡ take n s.now }
{
    &s[..n.min(s.len())]
}

// The byte at a place, and 0 past the end.
pub fn byte_at(s: &[u8], at: usize) -> u8
    ensures { result ≡ get_or s.now at 0 }
{
    s.get(at).copied().unwrap_or(0)
}

fn digit(b: u8) -> u32
    ensures { result ≡ digit_of b }
{
    match b {
        b'0'..=b'9' => u32::from(b - b'0'),
        _ => 0,
    }
}

// The number of at most six digits.
fn value_of(s: &[u8]) -> u32
    requires { length s.now ≤ 6 }
    ensures { result ≡ decimal_from 0 s.now }
{
    let mut n = 0;
    for b in s {
        n = n * 10 + digit(*b);
    }
    n
}

// The digits at the front of a text, of which more than six are not looked at, and their number.
#[derive(Clone, Copy)]
pub struct Decimal {
    pub count: usize,
    pub value: u32,
}

pub fn leading_number(s: &[u8]) -> Decimal
    ensures { result ≡ number_of s.now }
{
    let count = leading(front(s, 6), Class::Digit);
    Decimal {
        count,
        value: value_of(front(s, count)),
    }
}
