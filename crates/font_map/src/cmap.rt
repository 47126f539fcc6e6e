//! The encoding records of `cmap`, and the choice of a subtable. OpenType 1.9, cmap, Encoding records
//! and encodings.
ghost use Rattle.std.specs.Prelude.{◌≡◌, ◌+◌, ◌*◌, ◌<◌, ◌≤◌, IsTrue, IfSome, length};
ghost use Rattle.font_map.specs.Cmap.{candidate_of, chosen_record, encoding_count, is_candidate, subtable_at};

use sfnt_bytes::{be16, be32};

/// How many bytes stand before the encoding records.
pub(crate) const HEADER: usize = 4;

/// How many bytes an encoding record has.
pub(crate) const RECORD: usize = 8;

/// The format of subtables of segments.
pub(crate) const SEGMENTS: u16 = 4;

/// The format of subtables of groups.
pub(crate) const GROUPS: u16 = 12;

#[tactic(auto, unfolding(crate::specs::Cmap::encoding_count))]
fn count_encodings(cmap: &[u8]) -> usize
    ensures value { result ≡ encoding_count cmap.now }
    ensures small { result < 65536 }
{
    if cmap.len() < HEADER {
        0
    } else {
        be16(cmap, 2) as usize
    }
}

/// Returns the bytes from the subtable of a record on.
#[tactic(auto, using(crate::proofs::ByteLemmas::drop_past, crate::proofs::ByteLemmas::drop_range), unfolding(crate::specs::Cmap::subtable_at))]
pub(crate) fn subtable_at(cmap: &[u8], k: usize) -> &[u8]
    requires { 12 + 8 * k ≤ length cmap.now }
    ensures { result.now ≡ subtable_at cmap.now k }
{
    let at = be32(cmap, HEADER + RECORD * k + 4) as usize;
    if cmap.len() < at {
        return &[];
    }
    &cmap[at..]
}

#[tactic(auto, unfolding(crate::specs::Cmap::is_candidate))]
fn has_candidate(cmap: &[u8], platform: u16, encoding: u16, k: usize) -> bool
    requires { k < 65536 }
    ensures value { result ≡ is_candidate cmap.now platform encoding k }
    ensures within { IsTrue result → 12 + 8 * k ≤ length cmap.now }
{
    if cmap.len() < HEADER + RECORD * (k + 1) {
        return false;
    }
    let at = HEADER + RECORD * k;
    if be16(cmap, at) != platform || be16(cmap, at + 2) != encoding {
        return false;
    }
    let s = subtable_at(cmap, k);
    2 <= s.len() && (be16(s, 0) == SEGMENTS || be16(s, 0) == GROUPS)
}

#[tactic(auto, unfolding(crate::specs::Cmap::candidate_of))]
fn find_candidate(cmap: &[u8], platform: u16, encoding: u16) -> Option<usize>
    ensures value { result ≡ candidate_of cmap.now platform encoding }
    ensures within { IfSome result (λ k. 12 + 8 * k ≤ length cmap.now) }
{
    let count = count_encodings(cmap);
    for k in 0..count {
        if has_candidate(cmap, platform, encoding, k) {
            return Some(k);
        }
    }
    None
}

/// Returns the index of the record whose subtable is used: the first listed of the first pair that has a
/// candidate.
#[tactic(auto, unfolding(crate::specs::Cmap::chosen_record))]
pub(crate) fn choose_record(cmap: &[u8]) -> Option<usize>
    ensures value { result ≡ chosen_record cmap.now }
    ensures within { IfSome result (λ k. 12 + 8 * k ≤ length cmap.now) }
{
    if let Some(k) = find_candidate(cmap, 3, 10) {
        return Some(k);
    }
    if let Some(k) = find_candidate(cmap, 0, 4) {
        return Some(k);
    }
    if let Some(k) = find_candidate(cmap, 3, 1) {
        return Some(k);
    }
    find_candidate(cmap, 0, 3)
}
