// The hosts to try that a group lists.
ghost use Rattle.std.specs.Prelude.{◌≡◌};
ghost use Rattle.handshake.specs.Tried.{hosts_by, group_tried};

use crate::TriedGroup;
use answer::{Refusal, answer};
use xtry::Pairs;
use xtry::read::read_pairs;

// A group that was understood and asked for its hosts: its length, and the hosts, which may be refused.
#[derive(Clone, Copy)]
pub struct HostsRead {
    pub used: usize,
    pub pairs: Result<Pairs, Refusal>,
}

impl From<Result<HostsRead, Refusal>> for TriedGroup {
    ghost from_gives = { λ read tried. tried ≡ hosts_by read };

    fn from(read: Result<HostsRead, Refusal>) -> TriedGroup {
        match read {
            Ok(HostsRead { used, pairs }) => TriedGroup {
                answer: answer(pairs),
                used,
                pairs: pairs.unwrap_or_default(),
            },
            Err(refusal) => TriedGroup {
                answer: u8::from(refusal),
                used: 0,
                pairs: Pairs::default(),
            },
        }
    }
}

// Reads the pairs of the X-Try field of the group at the front of the bytes, be it a greeting or a reply. Where the
// field is absent nothing was written, and an empty value has no pairs.
pub fn try_pairs(bytes: &[u8]) -> Result<HostsRead, Refusal>
    ensures { hosts_by result ≡ group_tried bytes.now }
{
    let mut value = [0u8; 4096];
    let field = crate::field(bytes, b"X-Try", &mut value)?;
    let n = field.written.unwrap_or(0);
    Ok(HostsRead {
        used: field.used,
        pairs: read_pairs(&value[..n]),
    })
}
