//! Numbers in a list of bytes. OpenType 1.9, Data Types: all are big-endian.
ghost use Rattle.std.specs.Prelude.{◌≡◌, ◌+◌, ◌≤◌, length};
ghost use Rattle.sfnt_bytes.specs.Number.{u16_at, u32_at};

use byteorder::{BigEndian, ByteOrder};

/// Returns the big-endian `u16` at the byte `at`.
#[tactic(auto, unfolding(crate::specs::Number::u16_at))]
pub fn be16(b: &[u8], at: usize) -> u16
    requires { at + 2 ≤ length b.now }
    ensures { result ≡ u16_at b.now at }
{
    BigEndian::read_u16(&b[at..])
}

/// Returns the big-endian `u32` at the byte `at`.
#[tactic(auto, unfolding(crate::specs::Number::u32_at))]
pub fn be32(b: &[u8], at: usize) -> u32
    requires { at + 4 ≤ length b.now }
    ensures { result ≡ u32_at b.now at }
{
    BigEndian::read_u32(&b[at..])
}
