// Words of a text, and parts of it.
ghost use Rattle.std.specs.Prelude.{IfSome, ◌≡◌, cond, ◌+◌, ◌≤◌, ltb, length, max, take, drop, set};
ghost use Rattle.rows.specs.Rows.{part, until};

// The bytes from one place up to another, as far as the text has them.
pub fn part(text: &[u8], from: usize, to: usize) -> &[u8]
    ensures { result.now ≡ part text.now from to }
{
    ascii::after(ascii::front(text, to), from)
}

// Where a byte first stands from a place on, or the text's end.
pub fn find(text: &[u8], from: usize, b: u8) -> usize
    ensures first { result ≡ from + length (until b (drop from text.now)) }
    ensures behind { from ≤ result }
    ensures within { result ≤ max from (length text.now) }
{
    from + ascii::after(text, from)
        .iter()
        .take_while(|x| **x != b)
        .count()
}

// Which of the names, with a space between, the text is.
pub fn index(names: &[u8], text: &[u8]) -> Option<usize>
    ensures { IfSome result (λ n. n ≤ length names.now + 1) }
{
    names.split(|b| *b == b' ').position(|name| name == text)
}

// The first n bytes, or all of them.
pub fn front(area: &mut [u8], n: usize) -> &mut [u8]
    ensures { result.now ≡ take n area.old }
{
    let n = n.min(area.len());
    &mut area[..n]
}

// The byte is put at this place, if the area has it; the place behind it then.
pub fn put(area: &mut [u8], at: usize, b: u8) -> usize
    ensures value { result ≡ cond (ltb at (length area.old)) (at + 1) at }
    ensures area_after { area.new ≡ set area.old at b }
{
    if at < area.len() {
        area[at] = b;
        at + 1
    } else {
        at
    }
}
