// Time by the caller's clock, a 32-bit count of milliseconds that goes round.
ghost use Rattle.std.specs.Prelude.{◌≡◌};
ghost use Rattle.protocol.specs.Lines.{elapsed};

// The milliseconds from `then` to `now`, whatever the clock did between.
pub fn elapsed_ms(now: u32, then: u32) -> u32
    ensures { result ≡ elapsed now then }
{
    now.wrapping_sub(then)
}
