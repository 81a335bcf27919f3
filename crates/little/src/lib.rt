// Little-endian numbers, read from lent bytes.
#![tactic(auto)]

ghost use Rattle.std.specs.Prelude.{◌≡◌, ◌≤◌, ◌<◌, length, get_or};
ghost use Rattle.little.specs.Little.{little_at};

// The byte at a place as a number, and 0 past the end.
pub fn byte_at(bytes: &[u8], at: usize) -> usize
    ensures { (result ≡ get_or bytes.now at 0) × (result < 256) }
{
    bytes.get(at).map_or(0, |byte| usize::from(*byte))
}

// The two-byte number at a place.
pub fn two_at(bytes: &[u8], at: usize) -> usize
    requires { at ≤ 65535 }
    ensures { (result ≡ little_at 2 bytes.now at) × (result ≤ 65535) }
{
    byte_at(bytes, at) + 256 * byte_at(bytes, at + 1)
}

// The four-byte number that starts at the first byte lent.
pub fn word_of(bytes: &[u8]) -> u32
    requires { 4 ≤ length bytes.now }
    ensures { result ≡ little_at 4 bytes.now 0 }
{
    u32::from_le_bytes([bytes[0], bytes[1], bytes[2], bytes[3]])
}
