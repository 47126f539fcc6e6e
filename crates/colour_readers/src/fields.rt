//! Numbers in bytes, where a byte past the end counts as 0. OpenType 1.9, Data Types: all are big-endian.
ghost use Rattle.std.specs.Prelude.{◌≡◌, ◌<◌, ◌^◌, drop, slice_index};
ghost use Rattle.sfnt_bytes.specs.Number.{u16_at, u32_at};
ghost use Rattle.colour_tables.specs.Paints.{u24_at};

/// Returns the byte at a place.
#[tactic(auto, using(crate::proofs::FieldLemmas::byte_past))]
pub(crate) fn byte_at(b: &[u8], at: usize) -> u8
    ensures { result ≡ slice_index b.now at }
{
    if at < b.len() { b[at] } else { 0 }
}

/// Returns the big-endian `u16` at a place.
#[tactic(auto, unfolding(sfnt_bytes::specs::Number::u16_at))]
pub(crate) fn u16_at(b: &[u8], at: usize) -> u16
    requires { at < 2 ^ 50 }
    ensures { result ≡ u16_at b.now at }
{
    u16::from(byte_at(b, at)) * 256 + u16::from(byte_at(b, at + 1))
}

/// Returns the big-endian `u24` at a place.
#[tactic(auto, unfolding(colour_tables::specs::Paints::u24_at))]
pub(crate) fn u24_at(b: &[u8], at: usize) -> u32
    requires { at < 2 ^ 50 }
    ensures value { result ≡ u24_at b.now at }
    ensures small { result < 2 ^ 24 }
{
    u32::from(byte_at(b, at)) * 65536
        + u32::from(byte_at(b, at + 1)) * 256
        + u32::from(byte_at(b, at + 2))
}

/// Returns the big-endian `u32` at a place.
#[tactic(auto, unfolding(sfnt_bytes::specs::Number::u32_at))]
pub(crate) fn u32_at(b: &[u8], at: usize) -> u32
    requires { at < 2 ^ 50 }
    ensures { result ≡ u32_at b.now at }
{
    u32::from(byte_at(b, at)) * 16_777_216
        + u32::from(byte_at(b, at + 1)) * 65536
        + u32::from(byte_at(b, at + 2)) * 256
        + u32::from(byte_at(b, at + 3))
}

/// Returns the bytes from a place on.
#[tactic(auto, using(crate::proofs::FieldLemmas::drop_past))]
pub(crate) fn bytes_from(t: &[u8], at: usize) -> &[u8]
    ensures { result.now ≡ drop at t.now }
{
    if t.len() < at {
        return &[];
    }
    &t[at..]
}
