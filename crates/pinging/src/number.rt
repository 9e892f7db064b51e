// The number of a message, as pongs that answer it bear it.
ghost use Rattle.std.specs.Prelude.{◌≡◌};
ghost use Rattle.pinging.specs.Filled.{number_filled};

use wire::padded;

// The first 16 bytes of a message, with zeros for those that it lacks.
pub fn number_of(m: &[u8]) -> [u8; 16]
    ensures { result ≡ number_filled m.now }
{
    padded(m)
}
