// The text of a query.
ghost use Rattle.std.specs.Prelude.{◌≡◌, eqb, length};
ghost use Rattle.laws.specs.Tests.{any};
ghost use Rattle.protocol.specs.Queries.{until_zero};
ghost use Rattle.forwarding.specs.Texts.{text_of};

// Whether a payload has a text, which a zero byte ends, and the text's length.
#[repr(C)]
#[derive(Clone, Copy)]
pub struct Text {
    pub ended: bool,
    pub length: usize,
}

// How many bytes stand before the first zero byte, or are there if none is zero.
fn until_zero(part: &[u8]) -> usize
    ensures { result ≡ length (until_zero part.now) }
{
    part.iter().position(|b| *b == 0).unwrap_or(part.len())
}

// Whether a text has a zero byte.
pub fn any_zero(text: &[u8]) -> bool
    ensures { result ≡ any (eqb 0) text.now }
{
    text.contains(&0)
}

// The text of a query's payload: behind the two bytes of the speed, up to the first zero byte.
pub fn text_length(payload: &[u8]) -> Text
    ensures { result ≡ text_of payload.now }
{
    if payload.len() < 2 {
        return Text {
            ended: false,
            length: 0,
        };
    }
    let text = &payload[2..];
    let length = until_zero(text);
    Text {
        ended: length < text.len(),
        length,
    }
}
