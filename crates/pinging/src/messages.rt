// What a pong that is sent bears: its TTL, its Hops, and this station's own 14 bytes.
ghost use Rattle.std.specs.Prelude.{◌≡◌, max, ◌++◌};
ghost use Rattle.laws.specs.Bytes.{little_bytes};
ghost use Rattle.protocol.specs.Pings.{one_hop_more};

// The TTL that pongs bear: the ping's Hops, or 1 where those are 0.
pub fn pong_ttl(hops: u8) -> u8
    ensures { result ≡ max 1 hops }
{
    hops.max(1)
}

// Hops plus 1, and 255 where it is 255 already.
pub fn one_hop_more(hops: u8) -> u8
    ensures { result ≡ one_hop_more hops }
{
    hops.saturating_add(1)
}

// The 14 bytes of this station's own pong.
pub fn own_payload(port: u16, address: [u8; 4], files: u32, kilobytes: u32) -> [u8; 14]
    ensures { result ≡ little_bytes 2 port ++ (address ++ (little_bytes 4 files ++ little_bytes 4 kilobytes)) }
{
    let files = files.to_le_bytes();
    let kilobytes = kilobytes.to_le_bytes();
    [
        (port % 256) as u8,
        (port / 256 % 256) as u8,
        address[0],
        address[1],
        address[2],
        address[3],
        files[0],
        files[1],
        files[2],
        files[3],
        kilobytes[0],
        kilobytes[1],
        kilobytes[2],
        kilobytes[3],
    ]
}
