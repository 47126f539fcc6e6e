//! What a file is written from: this project's own.
ghost use Rattle.std.specs.Prelude.{◌≡◌, ◌≤◌, ◌<◌, length, None, Some, is_some, IsSome, MatchOption};
ghost use Rattle.sfnt_bytes.specs.declared.directory.TheConstants.{MAX_FILE};
ghost use Rattle.codes.specs.CharacterMap.{IsCharacterMap};
ghost use Rattle.codes.specs.Runs.{IsRun, NoRun};
ghost use Rattle.font_theory.specs.Bytes.{cut_head, padded};
ghost use Rattle.font_theory.specs.Content.{Content, IsWritable, KeepsComponents, glyph_count};
ghost use Rattle.font_write.specs.Parts.{IsNextKept};
ghost use Rattle.font_write.specs.declared.source.TheConstants.{MAX_TABLE};

use font_map::Run;

/// The most bytes that a table of a source has. A file has fewer: a table may be made before it is known that the file
/// is too large.
pub const MAX_TABLE: usize = 0x4000_0000;

/// Tables, a mapping and kept outlines: the content of a file.
pub trait Source {
    ghost use Rattle.font_theory.specs.Content.{Content};

    /// The content.
    ghost content_of: { Self → Content };

    /// Recalls what holds of the content: a file of it can be written, and it keeps .notdef, the glyph
    /// of each mapped code, and each component of an outline that it keeps. Does nothing at run time.
    fn recall_laws(&self)
        ensures writable { IsWritable (content_of self.now) }
        ensures components { KeepsComponents (content_of self.now) };

    /// Returns the table of a slot that is copied as it is: none of `cmap`, `glyf`, `head` and `loca`.
    fn copied(&self, slot: usize) -> Option<&[u8]>
        ensures table { MatchOption result ((content_of self.now).copied slot ≡ None)
            (λ b. (content_of self.now).copied slot ≡ Some b.now) }
        ensures small { MatchOption result Unit (λ b. length b.now ≤ MAX_TABLE) };

    /// Returns `head`, which may differ from that of the file in `checksumAdjustment` and
    /// `indexToLocFormat`.
    fn head(&self) -> &[u8]
        ensures head { (content_of self.now).head ≡ cut_head result.now }
        ensures long { 54 ≤ length result.now }
        ensures small { length result.now ≤ MAX_FILE };

    /// Returns `numGlyphs`.
    fn glyph_count(&self) -> u16
        ensures { result ≡ glyph_count (content_of self.now).copied };

    /// Returns the run that begins at the least mapped code not below `from`.
    fn next_run(&self, from: u32) -> Option<Run>
        ensures { MatchOption result (NoRun (content_of self.now).map from)
            (IsRun (content_of self.now).map from) };

    /// Returns the glyph of a code, 0 where it is not mapped.
    fn glyph(&self, code: u32) -> u16
        ensures { result ≡ (content_of self.now).map code }
    {
        match self.next_run(code) {
            Some(run) if run.first == code => run.glyph,
            _ => 0,
        }
    }

    /// Returns whether a glyph is kept.
    fn keeps(&self, g: u16) -> bool
        ensures { result ≡ is_some ((content_of self.now).outline g) };

    /// Returns the least kept glyph not below `from`, or `numGlyphs` where there is none.
    fn next_kept(&self, from: u16) -> u16
        requires { from ≤ glyph_count (content_of self.now).copied }
        ensures { IsNextKept (content_of self.now) from result }
    {
        let count = self.glyph_count();
        for g in from..count {
            if self.keeps(g) {
                return g;
            }
        }
        count
    }

    /// Returns the outline of a glyph that is kept, without the zeros that fill it. Of any other glyph it
    /// is not said which bytes it gives.
    fn outline_of(&self, g: u16) -> &[u8]
        ensures outline { IsSome ((content_of self.now).outline g) →
            (content_of self.now).outline g ≡ Some (padded result.now) }
        ensures small { length result.now ≤ MAX_FILE };
}

/// Recalls what is known of the map of a source. Does nothing at run time.
#[tactic(auto, using(crate::proofs::MapLemmas::is_map))]
pub(crate) fn recall_map<S: Source>(source: &S)
    ensures { IsCharacterMap (S.content_of source.now).map }
{
    source.recall_laws();
    let _count = source.glyph_count();
}
