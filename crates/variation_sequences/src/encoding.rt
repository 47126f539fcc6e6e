//! The encoding record of variation sequences. OpenType 1.9, cmap, Encoding records and encodings.
ghost use Rattle.std.specs.Prelude.{◌≡◌, ◌+◌, ◌*◌, ◌<◌, ◌≤◌, IfSome, IsTrue, find, length};
ghost use Rattle.std.specs.List.{range_with_len};
ghost use Rattle.std.specs.Option.{option_and_then, option_copied};
ghost use Rattle.variation_sequences.specs.Encoding.{encoding_record_count, from_subtable, has_later_record, is_sequence_record, sole_record, whole_subtable};

use sfnt_bytes::{be16, be32};

/// How many bytes stand before the encoding records.
const HEADER: usize = 4;

/// How many bytes an encoding record has.
const RECORD: usize = 8;

/// The format of subtables of variation sequences.
const SEQUENCES: u16 = 14;

/// How many bytes a subtable of variation sequences has before its records.
const SUBTABLE_HEADER: usize = 10;

#[tactic(auto, unfolding(crate::specs::Encoding::encoding_record_count))]
fn count_encodings(cmap: &[u8]) -> usize
    ensures value { result ≡ encoding_record_count cmap.now }
    ensures small { result < 65536 }
{
    if cmap.len() < HEADER {
        0
    } else {
        be16(cmap, 2) as usize
    }
}

// Returns whether a record is all there and one of variation sequences.
#[tactic(auto, unfolding(crate::specs::Encoding::is_sequence_record))]
fn is_sequence_record(cmap: &[u8], k: usize) -> bool
    requires { k < 65536 }
    ensures value { result ≡ is_sequence_record cmap.now k }
    ensures within { IsTrue result → 12 + 8 * k ≤ length cmap.now }
{
    let at = HEADER + RECORD * k;
    at + RECORD <= cmap.len() && be16(cmap, at) == 0 && be16(cmap, at + 2) == 5
}

// Returns whether another such record stands after a record.
#[tactic(auto, unfolding(crate::specs::Encoding::has_later_record))]
fn has_later_record(cmap: &[u8], k: usize) -> bool
    requires { k < 65536 }
    ensures { result ≡ has_later_record cmap.now k }
{
    (k + 1..count_encodings(cmap)).any(|j| is_sequence_record(cmap, j))
}

// Returns the index of the first such record.
fn first_record(cmap: &[u8]) -> Option<usize>
    ensures value { result ≡ find (is_sequence_record cmap.now)
        (range_with_len 0 (encoding_record_count cmap.now)) }
    ensures small { IfSome result (λ k. k < 65536) }
    ensures within { IfSome result (λ k. 12 + 8 * k ≤ length cmap.now) }
{
    let count = count_encodings(cmap);
    for k in 0..count {
        if is_sequence_record(cmap, k) {
            return Some(k);
        }
    }
    None
}

// Returns the index of the only such record.
#[tactic(auto, unfolding(crate::specs::Encoding::sole_record))]
fn sole_record(cmap: &[u8]) -> Option<usize>
    ensures value { result ≡ sole_record cmap.now }
    ensures within { IfSome result (λ k. 12 + 8 * k ≤ length cmap.now) }
{
    let k = first_record(cmap)?;
    if has_later_record(cmap, k) {
        return None;
    }
    Some(k)
}

// Returns the bytes from the subtable of a record on.
#[tactic(auto, using(crate::proofs::ByteLemmas::drop_past), unfolding(crate::specs::Encoding::from_subtable))]
fn from_subtable(cmap: &[u8], k: usize) -> &[u8]
    requires { 12 + 8 * k ≤ length cmap.now }
    ensures { result.now ≡ from_subtable cmap.now k }
{
    let at = be32(cmap, HEADER + RECORD * k + 4) as usize;
    if cmap.len() < at {
        return &[];
    }
    &cmap[at..]
}

// Returns the subtable with which bytes begin, cut off at its length.
#[tactic(auto, unfolding(crate::specs::Encoding::whole_subtable))]
fn whole_subtable(b: &[u8]) -> Option<&[u8]>
    ensures value { option_copied result ≡ whole_subtable b.now }
    ensures room { IfSome result (λ s. 10 ≤ length s.now) }
{
    if b.len() < SUBTABLE_HEADER || be16(b, 0) != SEQUENCES {
        return None;
    }
    let bytes = be32(b, 2) as usize;
    if bytes < SUBTABLE_HEADER || b.len() < bytes {
        return None;
    }
    Some(&b[..bytes])
}

/// Returns the subtable of variation sequences, if there is only one and its bytes are all there.
pub(crate) fn listed_subtable(cmap: &[u8]) -> Option<&[u8]>
    ensures value { option_copied result ≡ option_and_then (λ k. whole_subtable (from_subtable cmap.now k))
        (sole_record cmap.now) }
    ensures room { IfSome result (λ s. 10 ≤ length s.now) }
{
    let k = sole_record(cmap)?;
    whole_subtable(from_subtable(cmap, k))
}
