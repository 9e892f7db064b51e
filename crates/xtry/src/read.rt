// Pairs read from the value of an X-Try field.
ghost use Rattle.std.specs.Prelude.{◌≡◌, ◌≤◌};
ghost use Rattle.xtry.specs.Pairs.{bare, up_to, past, tried_by, tried_of};
ghost use Rattle.xtry.specs.Reading.{number_in, octet_in, port_in, parsed_of, kept};

use crate::{Pair, Pairs};
use answer::Refusal;
use ascii::leading_number;

// What stands before the first `s`, and what behind it: the whole text and nothing where there is none.
fn cut(text: &[u8], s: u8) -> (&[u8], &[u8])
    ensures before { result.0.now ≡ up_to s text.now }
    ensures behind { result.1.now ≡ past s text.now }
{
    match text.iter().position(|b| *b == s) {
        Some(end) => (&text[..end], &text[end + 1..]),
        None => (text, &text[text.len()..]),
    }
}

// The number of a text of one to `widest` digits.
#[tactic(auto, unfolding(crate::specs::Reading::number_in))]
fn number(text: &[u8], widest: usize) -> Option<u32>
    requires { widest ≤ 5 }
    ensures { result ≡ number_in widest text.now }
{
    let digits = leading_number(text);
    if 1 <= text.len() && text.len() <= widest && digits.count == text.len() {
        Some(digits.value)
    } else {
        None
    }
}

// One to three digits, at most 255.
#[tactic(auto, unfolding(crate::specs::Reading::number_in))]
fn octet(text: &[u8]) -> Option<u8>
    ensures { result ≡ octet_in text.now }
{
    u8::try_from(number(text, 3)?).ok()
}

// One to five digits, from 1 to 65,535.
#[tactic(auto, unfolding(crate::specs::Reading::number_in))]
fn port(text: &[u8]) -> Option<u16>
    ensures { result ≡ port_in text.now }
{
    let port = u16::try_from(number(text, 5)?).ok()?;
    (port != 0).then_some(port)
}

// An item as a pair: three octets that end at a dot, one that ends at a colon, and the port.
#[tactic(auto, unfolding(crate::specs::Reading::parsed_of))]
fn read_pair(item: &[u8]) -> Option<Pair>
    ensures { result ≡ parsed_of item.now }
{
    let (a, rest) = cut(item, b'.');
    let (b, rest) = cut(rest, b'.');
    let (c, rest) = cut(rest, b'.');
    let (d, last) = cut(rest, b':');
    Some(Pair {
        address: [octet(a)?, octet(b)?, octet(c)?, octet(d)?],
        port: port(last)?,
    })
}

// One pair more; past 32 there is no place.
#[tactic(auto, unfolding(crate::specs::Reading::kept))]
fn keep(pairs: &mut Pairs, pair: Pair)
    ensures { pairs.new ≡ kept pairs.old pair }
{
    let n = pairs.count;
    if n < 32 {
        pairs.pairs[n] = pair;
        pairs.count = n + 1;
    }
}

// Without the one space that may stand in front.
#[tactic(auto, unfolding(crate::specs::Pairs::bare))]
fn bare(text: &[u8]) -> &[u8]
    ensures { result.now ≡ bare text.now }
{
    text.strip_prefix(b" ").unwrap_or(text)
}

// The pairs of a value: its items, cut at commas, each of them checked, and the first 32 kept. Empty items are passed
// by, and behind a comma one space is.
pub fn read_pairs(value: &[u8]) -> Result<Pairs, Refusal>
    ensures { tried_by result ≡ tried_of value.now }
{
    let mut pairs = Pairs::default();
    let mut rest = value;
    while !rest.is_empty() {
        let (item, behind) = cut(rest, b',');
        if !item.is_empty() {
            let pair = read_pair(item).ok_or(Refusal::BadPayload)?;
            keep(&mut pairs, pair);
        }
        rest = bare(behind);
    }
    Ok(pairs)
}
