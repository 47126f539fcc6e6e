//! The subtable that maps the codes: by segments or by groups. OpenType 1.9, cmap: Character to Glyph
//! Index Mapping Table, formats 4 and 12.
ghost use Rattle.std.specs.Prelude.{◌≡◌, ◌<◌, ◌≤◌, true, false, length, MatchOption};
ghost use Rattle.codes.specs.CharacterMap.{IsUnmapped, clipped};
ghost use Rattle.font_map.specs.Cmap.{is_malformed};
ghost use Rattle.font_map.specs.Inside.{subtable_glyph};
ghost use Rattle.font_map.specs.Mapping.{listed_glyph};
ghost use Rattle.codes.specs.Runs.{IsNext, IsPiece, NoRun};
ghost use Rattle.codes.specs.declared.code_points.TheConstants.{CODES};

use crate::cmap::SEGMENTS;
use cmap_subtables::{ListedGroups, Segments, count_groups, count_segments};
use codes::{CODES, Run};
use sfnt_bytes::be16;

/// A subtable, by its format.
#[derive(Drop)]
pub(crate) enum Subtable<'a> {
    /// Format 4: Segment mapping to delta values.
    Segments(Segments<'a>),
    /// Format 12: Segmented coverage.
    Groups(ListedGroups<'a>),
}

impl<'a> Subtable<'a> {
    /// Opens a subtable, given with all bytes of `cmap` after it. Returns `None` where `segCountX2` is
    /// odd, or where its segments or groups are not all whole within `cmap`.
    #[tactic(auto, using(crate::proofs::MappingLemmas::listed_by_segments, crate::proofs::MappingLemmas::listed_by_groups), unfolding(crate::specs::Cmap::is_malformed))]
    pub(crate) fn open(s: &'a [u8]) -> Option<Subtable<'a>>
        ensures { MatchOption result (is_malformed s.now ≡ true) (λ subtable. (is_malformed s.now ≡ false)
            × (16 ≤ length s.now) × (subtable_glyph subtable ≡ listed_glyph s.now)) }
    {
        if s.len() < 16 {
            return None;
        }
        if be16(s, 0) == SEGMENTS {
            if be16(s, 6) % 2 == 1 || s.len() < 16 + 8 * count_segments(s) {
                return None;
            }
            return Some(Subtable::Segments(Segments::of(s)));
        }
        if s.len() < 16 + 12 * count_groups(s) {
            return None;
        }
        Some(Subtable::Groups(ListedGroups::of(s)))
    }

    /// Returns whether the segments or groups stand in order.
    pub(crate) fn is_ordered(&self) -> bool {
        match self {
            Subtable::Segments(segments) => segments.is_ordered(),
            Subtable::Groups(groups) => groups.is_ordered(),
        }
    }

    /// Returns the glyph of a code as the subtable gives it.
    pub(crate) fn glyph(&self, code: u32) -> u64
        ensures { result ≡ subtable_glyph self.now code }
    {
        match self {
            Subtable::Segments(segments) => u64::from(segments.glyph(code)),
            Subtable::Groups(groups) => groups.glyph(code),
        }
    }

    // Returns a piece of the map from a code on, or none up to a stop; and the stop.
    fn stretch(&self, glyphs: u16, from: u32) -> (Option<Run>, u32)
        requires low { from < CODES }
        ensures order { from < result.1 }
        ensures small { result.1 ≤ CODES }
        ensures found { MatchOption result.0
            (IsUnmapped (clipped glyphs (subtable_glyph self.now)) from result.1)
            (IsPiece (clipped glyphs (subtable_glyph self.now)) from) }
    {
        match self {
            Subtable::Segments(segments) => segments.stretch(glyphs, from),
            Subtable::Groups(groups) => groups.stretch(glyphs, from),
        }
    }

    /// Returns the first piece of the map from a code on.
    pub(crate) fn piece(&self, glyphs: u16, from: u32) -> Option<Run>
        ensures { MatchOption result (NoRun (clipped glyphs (subtable_glyph self.now)) from)
            (IsPiece (clipped glyphs (subtable_glyph self.now)) from) }
    {
        let mut at = from;
        while at < CODES {
            let (found, stop) = self.stretch(glyphs, at);
            if let Some(run) = found {
                return Some(run);
            }
            at = stop;
        }
        None
    }

    /// Returns the first piece of the map from a code on, and a hint where the next one may be. Where
    /// segments or groups stand in order and the hint is good, none is searched for.
    pub(crate) fn piece_by_hint(&self, glyphs: u16, hint: usize, from: u32) -> (Option<Run>, usize)
        ensures { IsNext (clipped glyphs (subtable_glyph self.now)) from result.0 }
    {
        let near = match self {
            Subtable::Segments(segments) => segments.piece_by_hint(glyphs, hint, from),
            Subtable::Groups(groups) => groups.piece_by_hint(glyphs, hint, from),
        };
        match near {
            Some(found) => found,
            None => (self.piece(glyphs, from), hint),
        }
    }
}
