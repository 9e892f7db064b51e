// Route tables written, and the places of keywords in them.
ghost use Rattle.std.specs.Prelude.{◌≡◌};
ghost use Rattle.keywords.specs.Hash.{hash_of, place_of};
ghost use Rattle.tablemessages.specs.Writer.{writer_result, writer_out};

use lunozhar::Number;
use tablemessages::Written;

// The messages that turn the old table, if there was one, into the new.
#[unsafe(no_mangle)]
pub extern "C" fn lunozhar_write_table<'a>(
    number: Number,
    had: bool,
    old: &'a [u8],
    old_infinity: u8,
    new: &'a [u8],
    infinity: u8,
    size: usize,
    out: &mut [u8],
) -> Written
    ensures result { result ≡ writer_result number.bytes had old.now old_infinity new.now infinity size out.old }
    ensures bytes { out.new
        ≡ writer_out number.bytes had old.now old_infinity new.now infinity size out.old }
{
    lunozhar::routing::lunozhar_write_table(
        number,
        had,
        old,
        old_infinity,
        new,
        infinity,
        size,
        out,
    )
}

// The hash of a keyword.
#[unsafe(no_mangle)]
pub extern "C" fn lunozhar_hash(keyword: &[u8]) -> u32
    ensures { result ≡ hash_of keyword.now }
{
    lunozhar::routing::lunozhar_hash(keyword)
}

// The place of a keyword in a table of 2^bits entries.
#[unsafe(no_mangle)]
pub extern "C" fn lunozhar_place(keyword: &[u8], bits: u32) -> u32
    ensures { result ≡ place_of bits keyword.now }
{
    lunozhar::routing::lunozhar_place(keyword, bits)
}
