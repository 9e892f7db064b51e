// The other lines of a line.
ghost use Rattle.std.specs.Prelude.{◌≡◌};
ghost use Rattle.protocol.specs.Lines.{is_other};

// Line k is another than `line`: where a query from it may go, and whose pongs answer a ping from it.
pub fn is_other(line: u32, k: u32) -> bool
    ensures { result ≡ is_other line k }
{
    k != line
}
