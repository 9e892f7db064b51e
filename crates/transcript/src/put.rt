// Bytes and numbers put over an area; each function gives the place past what it wrote.
ghost use Rattle.std.specs.Prelude.{◌≡◌, [], ◌∷◌, ◌+◌, ◌<◌, ◌≤◌, length};
ghost use Rattle.laws.specs.Parts.{Put};
ghost use Rattle.digits.specs.Decimal.{decimal};

pub(crate) fn put_byte(out: &mut [u8], at: usize, b: u8) -> usize
    requires { at < length out.old }
    ensures { Put at (b ∷ []) out.old out.new result }
{
    out[at] = b;
    at + 1
}

pub(crate) fn put_text(out: &mut [u8], at: usize, text: &[u8]) -> usize
    requires { at + length text.now ≤ length out.old }
    ensures { Put at text.now out.old out.new result }
{
    let end = at + text.len();
    out[at..end].copy_from_slice(text);
    end
}

// A number in decimal.
pub(crate) fn put_number(out: &mut [u8], at: usize, n: u16) -> usize
    requires { at + 5 ≤ length out.old }
    ensures text { Put at (decimal n) out.old out.new result }
    ensures near { result ≤ at + 5 }
{
    let digits = digits::spell(n);
    let bytes = digits.bytes;
    put_text(out, at, &bytes[..digits.size])
}
