// Route tables written, and the places of keywords in them.
ghost use Rattle.std.specs.Prelude.{◌≡◌};
ghost use Rattle.keywords.specs.Hash.{hash_of, place_of};
ghost use Rattle.tablemessages.specs.Writer.{writer_result, writer_out};

use crate::Number;
use tablemessages::Written;
use tablewriter::Wanted;

// The messages that turn the old table, if there was one, into the new.
pub fn lunozhar_write_table<'a>(
    number: Number,
    had: bool,
    old: &'a [u8],
    old_infinity: u8,
    new: &'a [u8],
    infinity: u8,
    size: usize,
    out: &mut [u8],
) -> Written
    ensures result { result ≡ writer_result number.bytes had old.now old_infinity new.now infinity size out.old }
    ensures bytes { out.new
        ≡ writer_out number.bytes had old.now old_infinity new.now infinity size out.old }
{
    let wanted = Wanted {
        had,
        was: old_infinity,
        infinity,
        size,
    };
    Written::from(tablewriter::write_table(number.bytes, wanted, old, new, out))
}

// The hash of a keyword.
pub fn lunozhar_hash(keyword: &[u8]) -> u32
    ensures { result ≡ hash_of keyword.now }
{
    keywords::hash::hash(keyword)
}

// The place of a keyword in a table of 2^bits entries.
pub fn lunozhar_place(keyword: &[u8], bits: u32) -> u32
    ensures { result ≡ place_of bits keyword.now }
{
    keywords::hash::place(keyword, bits)
}
