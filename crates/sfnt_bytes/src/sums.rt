//! Sums of words. OpenType 1.9, Organization of an OpenType Font, Calculating Checksums.
ghost use Rattle.std.specs.Prelude.{◌≡◌, ◌+◌, ◌<◌, ◌≤◌, length};
ghost use Rattle.sfnt_bytes.specs.Number.{u32_at};
ghost use Rattle.sfnt_bytes.specs.Sums.{adjustment_of, checksum_of, without_field};

use crate::number::be32;

/// What the words of a file sum to, `checksumAdjustment` among them.
const FILE_SUM: u32 = 0xB1B0_AFBA;

// Returns fewer than four bytes as one word, filled with zeros.
#[tactic(auto, unfolding(crate::specs::Number::u32_at))]
fn last_word(rest: &[u8]) -> u32
    requires { length rest.now < 4 }
    ensures { result ≡ u32_at rest.now 0 }
{
    let mut last = [0u8; 4];
    last[..rest.len()].copy_from_slice(rest);
    be32(&last, 0)
}

/// Returns the checksum of a table: the sum modulo 2^32 of the big-endian `u32` words of `b`, the last
/// one filled with zeros. OpenType 1.9, Organization of an OpenType Font, Calculating Checksums.
pub fn word_sum(b: &[u8]) -> u32
    ensures { result ≡ checksum_of b.now }
{
    let mut sum = 0u32;
    let mut rest = b;
    while rest.len() >= 4 {
        sum = sum.wrapping_add(be32(rest, 0));
        rest = &rest[4..];
    }
    sum.wrapping_add(last_word(rest))
}

/// Returns the checksum of `b`, which is `sum`, with the four bytes at `at` as zeros, wherever in a word
/// they stand.
pub(crate) fn sum_without(sum: u32, b: &[u8], at: usize) -> u32
    requires sum { sum ≡ checksum_of b.now }
    requires room { at + 4 ≤ length b.now }
    ensures { result ≡ checksum_of (without_field b.now at) }
{
    let place = at % 4;
    let mut field = [0u8; 8];
    field[place..place + 4].copy_from_slice(&b[at..at + 4]);
    sum.wrapping_sub(word_sum(&field))
}

/// Returns the `checksumAdjustment` of `head` in a file that sums to `sum` with that field as 0.
pub fn adjustment(sum: u32) -> u32
    ensures { result ≡ adjustment_of sum }
{
    FILE_SUM.wrapping_sub(sum)
}
