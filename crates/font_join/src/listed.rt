//! A font for all its codes, whose runs are listed: the mapping is searched once, and the test of cut form, the
//! search for a difference and the union read the list. OpenType 1.9, cmap, Format 12: Segmented coverage.
ghost use Rattle.std.specs.Prelude.{◌≡◌, ◌≤◌, length, Err, None, Some, IfOk, MatchOption, MatchResult, OnErr};
ghost use Rattle.sfnt_bytes.specs.Memory.{IsRefused};
ghost use Rattle.sfnt_bytes.specs.declared.directory.TheConstants.{MAX_FILE};
ghost use Rattle.font_theory.specs.Content.{content, everything};
ghost use Rattle.font_theory.specs.Cut.{IsCut};
ghost use Rattle.font_theory.specs.Kinds.{font_of, format_of};
ghost use Rattle.font_join.specs.Inside.{IsFormRefusal};
ghost use Rattle.font_join.specs.declared.join_error.JoinError.TheVariants.{NoMemory as JoinNoMemory};
ghost use Rattle.font_subset.specs.ListedRuns.{AreRunsOf};

use crate::join_error::{JoinError, Which};
use font_map::Run;
use font_subset::{CutForm, FontOfKind, Selection, listed_form};
use font_write::Source;
use sfnt_bytes::{Memory, NoMemory};
use std::alloc::Allocator;
use std::marker::Model;

/// A font of a kind, the glyphs that all its codes and all its glyphs keep, and its runs.
pub(crate) struct Listed<'f, 'a, A: Allocator> {
    font: Selection<'f, 'a, A>,
}

// Its value is the kind, and the file of the font.
impl<'f, 'a, A: Allocator> Model for Listed<'f, 'a, A> {
    ghost use Rattle.std.specs.Prelude.{◌≡◌, ℕ, List};
    ghost use Rattle.font_theory.specs.declared.kinds.Kind.{Kind};
    ghost use Rattle.font_subset.specs.KeptGlyphs.{all_asked};

    ghost Value = { Kind × List ℕ };

    ghost view = { λ l. (l.font.0, l.font.1.0) };

    ghost invariant = { λ l. l.font.1.1 ≡ all_asked };
}

impl<'f, 'a, A: Allocator> Drop for Listed<'f, 'a, A> {
    fn drop(self) {
        let Listed { font: _font } = self;
    }
}

impl<'f, 'a, A: Memory + Copy> Listed<'f, 'a, A> {
    /// Marks what a cut of the font's kind keeps, and lists its runs.
    ///
    /// # Errors
    ///
    /// `NotACut` where it is no cut of the kind, and `NoMemory` if out of memory.
    pub(crate) fn new(
        alloc: A,
        font: &'f FontOfKind<'f, 'a, A>,
        which: Which,
    ) -> Result<Listed<'f, 'a, A>, JoinError>
        ensures exact { MatchResult result
            (λ listed. (listed ≡ font.entry.now) × IsCut (format_of font.entry.now.0) font.entry.now.1)
            (IsFormRefusal (format_of font.entry.now.0) which font.entry.now.1) }
        ensures memory { result ≡ Err JoinNoMemory → IsRefused A.refuses }
    {
        font.recall_accepted();
        let (selection, form) = listed_form(alloc, font)?;
        match form {
            CutForm::Not => Err(JoinError::NotACut(which)),
            _ => Ok(Listed { font: selection }),
        }
    }
}

impl<'f, 'a, A: Allocator> Source for Listed<'f, 'a, A> {
    ghost use Rattle.font_theory.specs.Content.{content, everything};
    ghost use Rattle.font_theory.specs.Kinds.{font_of};

    ghost content_of = { λ file. content (font_of file.0 file.1) everything };

    fn recall_laws(&self) {
        self.font.recall_laws();
    }

    fn copied(&self, slot: usize) -> Option<&[u8]> {
        self.font.copied(slot)
    }

    fn head(&self) -> &[u8] {
        self.font.head()
    }

    fn glyph_count(&self) -> u16 {
        self.font.glyph_count()
    }

    fn next_run(&self, from: u32) -> Option<Run> {
        self.font.next_run(from)
    }

    fn keeps(&self, g: u16) -> bool {
        self.font.keeps(g)
    }

    fn next_kept(&self, from: u16) -> u16 {
        self.font.next_kept(from)
    }

    fn outline_of(&self, g: u16) -> &[u8] {
        self.font.outline_of(g)
    }
}

impl<'f, 'a, A: Memory + Copy> Listed<'f, 'a, A> {
    /// Returns the list of runs, where nothing else of this is needed any more.
    ///
    /// # Errors
    ///
    /// `NoMemory` if out of memory.
    pub(crate) fn into_runs(self, alloc: A) -> Result<Vec<Run, A>, NoMemory>
        ensures runs { IfOk result (λ runs. AreRunsOf self.entry.1 runs.items) }
        ensures memory { OnErr result (IsRefused A.refuses) }
    {
        let Listed { font } = self;
        font.into_runs(alloc)
    }
}

impl<'f, 'a, A: Allocator> Listed<'f, 'a, A> {
    /// Returns the outline of a glyph that is kept, as a file in cut form has it: with the zeros that fill
    /// it.
    pub(crate) fn written_outline(&self, g: u16) -> Option<&'a [u8]>
        requires { IsCut (format_of self.now.0) self.now.1 }
        ensures outline { MatchOption result
            ((content (font_of self.now.0 self.now.1) everything).outline g ≡ None)
            (λ b. (content (font_of self.now.0 self.now.1) everything).outline g ≡ Some b.now) }
        ensures small { MatchOption result Unit (λ b. length b.now ≤ MAX_FILE) }
    {
        self.font.written_outline(g)
    }
}
