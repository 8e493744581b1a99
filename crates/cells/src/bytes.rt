// Big-endian numbers at a place of the bytes.
ghost use Rattle.std.specs.Prelude.{◌≡◌, ◌+◌, ◌<◌, ◌≤◌, length};
ghost use Rattle.cells.specs.Bytes.{pair_at, quad_from, octet_at};
ghost use Rattle.cells.specs.Cell.{key_as_number, key_at};

#[tactic(auto, unfolding(crate::specs::Bytes::pair_at))]
pub fn pair(s: &[u8], at: usize) -> u64
    requires { at + 2 ≤ length s.now }
    ensures { (result ≡ pair_at s.now at) × (result < 65536) }
{
    u64::from(u16::from_be_bytes([s[at], s[at + 1]]))
}

#[tactic(auto, unfolding(crate::specs::Bytes::quad_from, crate::specs::Bytes::pair_at))]
pub fn quad(s: &[u8], at: usize) -> u64
    requires { at + 4 ≤ length s.now }
    ensures { (result ≡ quad_from s.now at) × (result < 4294967296) }
{
    u64::from(u32::from_be_bytes([s[at], s[at + 1], s[at + 2], s[at + 3]]))
}

// The compiler makes one load of it.
#[tactic(auto, unfolding(crate::specs::Bytes::octet_at, crate::specs::Bytes::quad_from, crate::specs::Bytes::pair_at))]
pub fn octet(s: &[u8], at: usize) -> u64
    requires { at + 8 ≤ length s.now }
    ensures { (result ≡ octet_at s.now at) × (result < 18446744073709551616) }
{
    u64::from_be_bytes([
        s[at],
        s[at + 1],
        s[at + 2],
        s[at + 3],
        s[at + 4],
        s[at + 5],
        s[at + 6],
        s[at + 7],
    ])
}

// The 7 bytes of a key as one number.
#[tactic(auto, unfolding(crate::specs::Cell::key_as_number, crate::specs::Cell::key_at, crate::specs::Bytes::pair_at))]
pub fn key_number(s: &[u8], at: usize) -> u64
    requires { at + 7 ≤ length s.now }
    ensures { (result ≡ key_as_number (key_at s.now at)) × (result < 72057594037927936) }
{
    u64::from_be_bytes([
        0,
        s[at],
        s[at + 1],
        s[at + 2],
        s[at + 3],
        s[at + 4],
        s[at + 5],
        s[at + 6],
    ])
}
