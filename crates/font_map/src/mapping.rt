//! The mapping of a `cmap` from code points to glyphs. OpenType 1.9, cmap: Character to Glyph Index
//! Mapping Table.
ghost use Rattle.std.specs.Prelude.{◌≡◌, ℕ, OnErr, OnOk, length, slice_index, ◌+◌, ◌*◌, ◌<◌, ◌≤◌, ◌⊎◌, ◌↔◌, IsTrue, None, Some, MatchOption, MatchResult};
ghost use Rattle.sfnt_bytes.specs.Memory.{IsRefusedUpTo};
ghost use Rattle.codes.specs.CharacterMap.{IsCharacterMap, IsUnmapped, clipped, mapped_codes, restricted};
ghost use Rattle.font_map.specs.Cmap.{chosen_of};
ghost use Rattle.font_map.specs.Mapping.{mapping_of};
ghost use Rattle.font_map.specs.Refusals.{map_fault};
ghost use Rattle.codes.specs.Runs.{IsNext, IsPiece, IsRun, NoRun};
ghost use Rattle.codes.specs.Wanted.{member};
ghost use Rattle.codes.specs.declared.code_points.TheConstants.{CODES};

use crate::cmap::{HEADER, RECORD, choose_record, subtable_at};
use crate::laid_out::{lay_groups, lay_segments, no_skips};
use crate::subtable::Subtable;
use crate::within::wanted_run;
use codes::{Pieces, Run, Wanted, clip, mapped_count, next_run};
use sfnt_bytes::{Memory, NoMemory, be16};
use std::alloc::Allocator;
use std::marker::Model;

/// Why a `cmap` has no mapping that can be used: the first that applies, in this order.
#[derive(Clone, Copy, Debug, PartialEq, Eq)]
pub enum MapError {
    /// No record 3/10, 0/4, 3/1 or 0/3 has a subtable of format 4 or 12.
    NoMapping,
    /// The chosen subtable is not whole within `cmap`, or its `segCountX2` is odd.
    BadCmap,
}

/// The mapping of a `cmap`, for a font of this number of glyphs.
///
/// Segments and groups may stand in any order, overlap, and name glyphs that are not there: a code
/// has no glyph, then.
pub struct Mapping<'a> {
    cmap: &'a [u8],
    glyphs: u16,
    chosen: usize,
    subtable: Subtable<'a>,
}

impl<'a> Model for Mapping<'a> {
    ghost use Rattle.std.specs.Prelude.{ℕ, List};
    ghost use Rattle.font_map.specs.Inside.{IsChosen};

    ghost Value = { List ℕ × ℕ };

    ghost view = { λ m. (m.cmap.now, m.glyphs) };

    ghost invariant = { λ m. IsChosen m.cmap.now m.glyphs m.chosen m.subtable };
}

impl<'a> Drop for Mapping<'a> {
    fn drop(self) {
        let Mapping {
            cmap: _,
            glyphs: _,
            chosen: _,
            subtable: _subtable,
        } = self;
    }
}

impl<'a> Mapping<'a> {
    /// Chooses the subtable of a `cmap`: the first of format 4 or 12 in the order 3/10, 0/4, 3/1, 0/3.
    ///
    /// # Errors
    ///
    /// The first [`MapError`] that applies.
    #[tactic(auto, unfolding(crate::specs::Refusals::map_fault))]
    pub fn choose(cmap: &'a [u8], glyphs: u16) -> Result<Mapping<'a>, MapError>
        ensures { MatchResult result
            (λ mapping. (mapping ≡ (cmap.now, glyphs)) × (map_fault cmap.now ≡ None))
            (λ error. map_fault cmap.now ≡ Some error) }
    {
        let Some(chosen) = choose_record(cmap) else {
            return Err(MapError::NoMapping);
        };
        let Some(subtable) = Subtable::open(subtable_at(cmap, chosen)) else {
            return Err(MapError::BadCmap);
        };
        Ok(Mapping {
            cmap,
            glyphs,
            chosen,
            subtable,
        })
    }

    /// Returns `platformID`, `encodingID` and format of the chosen subtable.
    #[tactic(auto, using(crate::proofs::MappingLemmas::is_character_map), unfolding(crate::specs::Cmap::chosen_of))]
    pub fn chosen(&self) -> (u16, u16, u16)
        ensures chosen { result ≡ chosen_of self.now.0 }

        // What choosing it has shown.
        ensures sound { map_fault self.now.0 ≡ None }
        ensures map { IsCharacterMap (mapping_of self.now.0 self.now.1) }
    {
        let at = HEADER + RECORD * self.chosen;
        (
            be16(self.cmap, at),
            be16(self.cmap, at + 2),
            be16(subtable_at(self.cmap, self.chosen), 0),
        )
    }

    /// Returns the glyph of a code, 0 where it is not mapped.
    #[tactic(auto, unfolding(crate::specs::Mapping::mapping_of))]
    pub fn glyph(&self, code: u32) -> u16
        ensures glyph { result ≡ mapping_of self.now.0 self.now.1 code }
        ensures small { (result ≡ 0) ⊎ (result < self.now.1) }
    {
        clip(self.subtable.glyph(code), self.glyphs, code)
    }

    /// Returns how many codes are mapped.
    pub fn mapped_count(&self) -> u32
        ensures { result ≡ mapped_codes (mapping_of self.now.0 self.now.1) }
    {
        mapped_count(self)
    }

    /// Returns the run that begins at the least mapped code not below `from`: as long as neighbouring codes
    /// lie on neighbouring glyphs.
    pub fn next_run(&self, from: u32) -> Option<Run>
        ensures { MatchOption result (NoRun (mapping_of self.now.0 self.now.1) from)
            (IsRun (mapping_of self.now.0 self.now.1) from) }
    {
        if let Subtable::Segments(segments) = &self.subtable
            && !segments.is_ordered()
        {
            return segments.run_by_walk(self.glyphs, from);
        }
        next_run(self, from)
    }

    /// Returns the first piece of the map from a code on, and a hint where the next one may be.
    pub(crate) fn piece_by_hint(&self, hint: usize, from: u32) -> (Option<Run>, usize)
        ensures { IsNext (mapping_of self.now.0 self.now.1) from result.0 }
    {
        self.subtable.piece_by_hint(self.glyphs, hint, from)
    }

    /// Returns whether the segments or groups stand in order.
    pub(crate) fn is_ordered(&self) -> bool {
        self.subtable.is_ordered()
    }

    /// Gives each code its glyph.
    ///
    /// # Errors
    ///
    /// `NoMemory` if out of memory, which is asked for with format 12 alone.
    pub(crate) fn lay_out<A: Memory>(&self, alloc: A, glyphs: &mut [u16]) -> Result<(), NoMemory>
        requires codes { length glyphs.old ≡ CODES }
        requires unmapped { (c : ℕ) → slice_index glyphs.old c ≡ 0 }
        ensures codes { length glyphs.new ≡ CODES }
        ensures map { OnOk result (slice_index glyphs.new ≡ mapping_of self.now.0 self.now.1) }
        ensures memory { OnErr result (IsRefusedUpTo A.refuses (2 * CODES)) }
    {
        match &self.subtable {
            Subtable::Segments(segments) => lay_segments(segments.bytes(), self.glyphs, glyphs),
            Subtable::Groups(groups) => {
                let mut skip = no_skips(alloc, 0x11001)?;
                lay_groups(groups.bytes(), self.glyphs, glyphs, &mut skip);
            }
        }
        Ok(())
    }

    /// Returns the run that begins at the least mapped code of a set not below `from`.
    pub fn wanted_run<A: Allocator>(&self, wanted: &Wanted<A>, from: u32) -> Option<Run>
        ensures { MatchOption result
            (NoRun (restricted (member wanted.now) (mapping_of self.now.0 self.now.1)) from)
            (IsRun (restricted (member wanted.now) (mapping_of self.now.0 self.now.1)) from) }
    {
        wanted_run(self, wanted, from)
    }
}

impl<'a> Pieces for Mapping<'a> {
    ghost use Rattle.font_map.specs.Mapping.{mapping_of};

    ghost map_of = { λ m. mapping_of m.0 m.1 };

    fn piece(&self, from: u32) -> Option<Run> {
        self.subtable.piece(self.glyphs, from)
    }
}
