// The length and the Infinity that a route table may have (RULES 12.3).
ghost use Rattle.std.specs.Prelude.{◌≡◌};
ghost use Rattle.tables.specs.Tables.{good_length, good_infinity};

// A length that a RESET may carry: a power of two, 4 to 65,536.
pub fn good_length(n: u32) -> bool
    ensures { result ≡ good_length n }
{
    match n {
        4
        | 8
        | 16
        | 32
        | 64
        | 128
        | 256
        | 512
        | 1024
        | 2048
        | 4096
        | 8192
        | 16384
        | 32768
        | 65536 => true,
        _ => false,
    }
}

// An Infinity that a RESET may carry.
pub fn good_infinity(n: u8) -> bool
    ensures { result ≡ good_infinity n }
{
    (2..=127).contains(&n)
}
