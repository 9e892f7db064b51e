// Hosts to try, as a handshake's X-Try field lists them: address and port pairs, read from a field's value and written
// as one.
#![tactic(auto)]

ghost use Rattle.std.specs.Prelude.{◌≡◌, []};
ghost use Rattle.xtry.specs.Pairs.{pairs_from};

pub mod read;
pub mod write;

// The address of a host in network order, and its port.
#[repr(C)]
#[derive(Clone, Copy)]
pub struct Pair {
    pub address: [u8; 4],
    pub port: u16,
}

// Up to 32 pairs: the first `count` places are in use, the others are zero when read. A count beside an array, since
// lunozhar_pairs of the C interface is one.
#[repr(C)]
#[derive(Clone, Copy)]
pub struct Pairs {
    pub count: usize,
    pub pairs: [Pair; 32],
}

// No pairs at all.
impl Default for Pairs {
    ghost is_default = { λ pairs. pairs ≡ pairs_from [] };

    #[tactic(auto, unfolding(crate::specs::Pairs::pairs_from))]
    fn default() -> Pairs {
        let none = Pair {
            address: [0; 4],
            port: 0,
        };
        Pairs {
            count: 0,
            pairs: [none; 32],
        }
    }
}
