// The numbers of a PATCH, of 4 or 8 bits each: tried against entries, and added to them. Data of 4 bits is unpacked, a
// block at a time, to numbers of 8 bits with the same values, so that every number goes through the loops of
// `bytes_fit` and `add_bytes`.
ghost use Rattle.std.specs.Prelude.{◌≡◌, true, ◌+◌, ◌*◌, ◌%◌, ◌≤◌, ◌<◌, ◌^◌, min, length, take};
ghost use Rattle.tables.specs.Patch.{good_bits, numbers, number_count, fits, all_fit, added};
ghost use Rattle.tablereader.specs.Unpacking.{widened, unpacked};

// How many bytes of 4-bit data are unpacked at a time.
const BLOCK: usize = 128;

// How many numbers n bytes of data hold.
pub(crate) fn number_count(bits: u8, n: usize) -> usize
    requires { n < 2 ^ 63 }
    ensures { result ≡ number_count bits n }
{
    if bits == 4 { n * 2 } else { n }
}

// The entry with an 8-bit number added, modulo 256: no branch, so that sums of many entries are taken at once.
fn sum_of(number: u8, entry: u8) -> u8
    ensures { result ≡ (entry + number) % 256 }
{
    entry.wrapping_add(number)
}

// The entry with an 8-bit number added is in 1..infinity. A number below 128 adds: the sum must not come out below the
// entry; any other takes away.
fn number_fits(infinity: u8, number: u8, entry: u8) -> bool
    ensures { result ≡ fits 8 infinity number entry }
{
    let sum = sum_of(number, entry);
    let within = (1 <= sum) & (sum <= infinity);
    if number < 128 {
        within & (entry <= sum)
    } else {
        within & (sum < entry)
    }
}

// Each 8-bit number, added to the entry at its place, gives one in 1..infinity. No way out before the end: the turns
// are alike.
fn bytes_fit(numbers: &[u8], entries: &[u8], infinity: u8) -> bool
    requires { length numbers.now ≤ length entries.now }
    ensures { result ≡ all_fit 8 infinity numbers.now entries.now }
{
    let mut good = true;
    for (j, number) in numbers.iter().enumerate() {
        good &= number_fits(infinity, *number, entries[j]);
    }
    good
}

// Adds each 8-bit number to the entry at its place; entries past them stay.
fn add_bytes(numbers: &[u8], entries: &mut [u8])
    requires { all_fit 8 255 numbers.now entries.old ≡ true }
    ensures { entries.new ≡ added 8 numbers.now entries.old }
{
    for (j, number) in numbers.iter().enumerate() {
        entries[j] = sum_of(*number, entries[j]);
    }
}

// A 4-bit number as one of 8 bits.
fn as_byte(number: u8) -> u8
    requires { number < 16 }
    ensures { result ≡ widened number }
{
    if number < 8 { number } else { number + 240 }
}

// The 4-bit numbers of the data, as numbers of 8 bits: the high half of a byte comes first.
fn unpack(bytes: &[u8], numbers: &mut [u8])
    requires { length bytes.now * 2 ≤ length numbers.old }
    ensures { take (length bytes.now * 2) numbers.new ≡ unpacked bytes.now }
{
    for (i, b) in bytes.iter().enumerate() {
        numbers[i * 2] = as_byte(*b / 16);
        numbers[i * 2 + 1] = as_byte(*b % 16);
    }
}

// Each number of a block of 4-bit data, added to the entry at its place, gives one in 1..infinity.
fn block_fits(bytes: &[u8], entries: &[u8], infinity: u8) -> bool
    requires bytes_len_bound { length bytes.now ≤ 128 }
    requires bytes_in_bounds { length bytes.now * 2 ≤ length entries.now }
    ensures { result ≡ all_fit 4 infinity (numbers 4 bytes.now) entries.now }
{
    let mut numbers = [0u8; 256];
    let n = bytes.len() * 2;
    unpack(bytes, &mut numbers);
    bytes_fit(&numbers[..n], entries, infinity)
}

// Adds each number of a block of 4-bit data to the entry at its place.
fn add_block(bytes: &[u8], entries: &mut [u8])
    requires bytes_len_bound { length bytes.now ≤ 128 }
    requires entries_value { all_fit 4 255 (numbers 4 bytes.now) entries.old ≡ true }
    ensures { entries.new ≡ added 4 (numbers 4 bytes.now) entries.old }
{
    let mut numbers = [0u8; 256];
    let n = bytes.len() * 2;
    unpack(bytes, &mut numbers);
    add_bytes(&numbers[..n], entries);
}

// Where the block that starts at `at` ends, in n bytes of data.
fn block_end(at: usize, n: usize) -> usize
    requires { at ≤ n }
    ensures { result ≡ min n (at + 128) }
{
    at + BLOCK.min(n - at)
}

// Each number of 4-bit data fits, block after block.
fn nibbles_fit(bytes: &[u8], entries: &[u8], infinity: u8) -> bool
    requires { length bytes.now * 2 ≤ length entries.now }
    ensures { result ≡ all_fit 4 infinity (numbers 4 bytes.now) entries.now }
{
    let mut good = true;
    let mut at = 0;
    while at < bytes.len() {
        let end = block_end(at, bytes.len());
        let first = at * 2;
        let fit = block_fits(&bytes[at..end], &entries[first..], infinity);
        good = good & fit;
        at = end;
    }
    good
}

// Adds each number of 4-bit data, block after block.
fn add_nibbles(bytes: &[u8], entries: &mut [u8])
    requires { all_fit 4 255 (numbers 4 bytes.now) entries.old ≡ true }
    ensures { entries.new ≡ added 4 (numbers 4 bytes.now) entries.old }
{
    let mut at = 0;
    while at < bytes.len() {
        let end = block_end(at, bytes.len());
        let first = at * 2;
        add_block(&bytes[at..end], &mut entries[first..]);
        at = end;
    }
}

// Each number of the data, added to the entry at its place, gives one in 1..infinity.
pub(crate) fn all_fit(bytes: &[u8], entries: &[u8], bits: u8, infinity: u8) -> bool
    requires bits_value { good_bits bits ≡ true }
    requires bytes_in_bounds { number_count bits (length bytes.now) ≤ length entries.now }
    ensures { result ≡ all_fit bits infinity (numbers bits bytes.now) entries.now }
{
    if bits == 4 {
        nibbles_fit(bytes, entries, infinity)
    } else {
        bytes_fit(bytes, entries, infinity)
    }
}

// Adds each number of the data to the entry at its place; entries past them stay.
pub(crate) fn add_all(bytes: &[u8], entries: &mut [u8], bits: u8)
    requires bits_value { good_bits bits ≡ true }
    requires entries_value { all_fit bits 255 (numbers bits bytes.now) entries.old ≡ true }
    ensures { entries.new ≡ added bits (numbers bits bytes.now) entries.old }
{
    if bits == 4 {
        add_nibbles(bytes, entries);
    } else {
        add_bytes(bytes, entries);
    }
}
