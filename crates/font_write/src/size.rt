//! How many bytes the file of a source has, before any of them is read. OpenType 1.9, Organization of
//! an OpenType Font.
ghost use Rattle.std.specs.Prelude.{◌≡◌, ◌+◌, ◌≤◌, ◌<◌, length, MatchOption};
ghost use Rattle.std.specs.Option.{option_map, option_map_or};
ghost use Rattle.sfnt_bytes.specs.Findings.{padding_of};
ghost use Rattle.font_theory.specs.Bytes.{padded};
ghost use Rattle.font_theory.specs.File.{writing_of};
ghost use Rattle.font_write.specs.Parts.{table_at};
ghost use Rattle.font_write.specs.Plan.{AreCounts, IsSize};

use crate::bytes::padding;
use crate::made::{Made, made_in};
use crate::made_cmap::{cmap_length, measure_groups};
use crate::made_glyf::{glyf_length, outlines_size};
use crate::made_loca::loca_length;
use crate::source::Source;
use font_theory::Profile;
use sfnt_bytes::{ALL_SLOTS, slot_in};

/// How many groups a map has, what their words sum to, and how many bytes all outlines have.
#[derive(Clone, Copy, Debug, PartialEq, Eq)]
pub struct Counts {
    pub groups: u32,
    pub group_sum: u32,
    pub outlines: usize,
}

/// What is counted of a source, and how many bytes its file has.
#[derive(Clone, Copy, Debug, PartialEq, Eq)]
pub struct Size {
    pub counts: Counts,
    pub bytes: u64,
}

/// Returns the length of the table in a slot, where there is one.
pub(crate) fn table_length<S: Source>(
    source: &S,
    profile: Profile,
    counts: Counts,
    slot: usize,
) -> Option<u64>
    requires counts { AreCounts (S.content_of source.now) counts }
    ensures exact { result ≡ option_map (λ bytes. length bytes)
        (table_at (writing_of profile) (S.content_of source.now) slot) }
    ensures small { MatchOption result Unit (λ n. n ≤ 0x0001_0000_0000_0004) }
{
    match made_in(slot) {
        Some(Made::Cmap) => Some(u64::from(cmap_length(source, profile, counts.groups))),
        Some(Made::Glyf) => Some(glyf_length(source, profile, counts.outlines)),
        Some(Made::Head) => Some(source.head().len() as u64),
        Some(Made::Loca) => Some(u64::from(loca_length(source))),
        None => match source.copied(slot) {
            Some(bytes) => Some(bytes.len() as u64),
            None => None,
        },
    }
}

// Returns a length with the zeros that fill it.
fn padded_size(length: u64) -> u64
    requires { length ≤ 0x0001_0000_0000_0004 }
    ensures { result ≡ length + padding_of length }
{
    length + padding(length as usize) as u64
}

// Returns the length of the table in a slot, padded, with its record, and 0 where there is none.
fn slot_size<S: Source>(source: &S, profile: Profile, counts: Counts, slot: usize) -> u64
    requires counts { AreCounts (S.content_of source.now) counts }
    ensures exact { result ≡ option_map_or (λ bytes. 16 + length (padded bytes))
        (table_at (writing_of profile) (S.content_of source.now) slot) 0 }
    ensures small { result ≤ 0x0002_0000_0000_0000 }
{
    match table_length(source, profile, counts, slot) {
        Some(length) => 16 + padded_size(length),
        None => 0,
    }
}

/// Counts the groups of a source, the bytes of its outlines and those of its file.
pub fn file_size<S: Source>(source: &S, profile: Profile) -> Size
    ensures { IsSize (writing_of profile) (S.content_of source.now) result }
{
    let (groups, group_sum) = measure_groups(source);
    let counts = Counts {
        groups,
        group_sum,
        outlines: outlines_size(source),
    };
    counted_size(source, profile, counts)
}

/// Counts the bytes of the file of a source whose groups and outlines are counted already. It goes over
/// neither of them.
pub fn counted_size<S: Source>(source: &S, profile: Profile, counts: Counts) -> Size
    requires { AreCounts (S.content_of source.now) counts }
    ensures { IsSize (writing_of profile) (S.content_of source.now) result }
{
    source.recall_laws();
    let mut bytes: u64 = 12;
    for place in 0..ALL_SLOTS {
        bytes += slot_size(source, profile, counts, slot_in(place));
    }
    Size { counts, bytes }
}
