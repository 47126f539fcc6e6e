//! What a full cut is made of: a font, the codes that are wanted of it, and the glyphs that these keep.
//! OpenType 1.9, cmap; glyf, Composite Glyph Description.
ghost use Rattle.std.specs.Prelude.{◌≡◌, Some, IfOk, OnErr};
ghost use Rattle.sfnt_bytes.specs.Memory.{IsRefused};

use crate::selection::Selection;
use font_file::Font;
use font_map::{Run, Wanted};
use font_write::Source;
use sfnt_bytes::{Memory, NoMemory};
use std::alloc::{Allocator, Global};
use std::marker::Model;

/// What a cut is made of: the tables of a font, the wanted codes that it maps, and the outlines that
/// these keep.
pub struct CutOf<'f, 'a, A: Allocator = Global> {
    selection: Selection<'f, 'a, A>,
}

// Its value is the file of the font, and the ranges of the wanted codes, where these are not all.
impl<'f, 'a, A: Allocator> Model for CutOf<'f, 'a, A> {
    ghost use Rattle.std.specs.Prelude.{◌≡◌, ℕ, List, [], Option, Some};
    ghost use Rattle.codes.specs.declared.code_range.CodeRange.{CodeRange};
    ghost use Rattle.font_theory.specs.declared.kinds.Kind.TheVariants.{Full};

    ghost Value = { List ℕ × Option (List CodeRange) };

    ghost view = { λ c. (c.selection.1.0, c.selection.1.1.ranges) };

    ghost invariant = { λ c. (c.selection.0 ≡ Full) × (c.selection.1.1.numbers ≡ Some []) };
}

impl<'f, 'a, A: Allocator> Drop for CutOf<'f, 'a, A> {
    fn drop(self) {
        let CutOf {
            selection: _selection,
        } = self;
    }
}

impl<'f, 'a, A: Memory + Copy> CutOf<'f, 'a, A> {
    /// Returns the content of the cut of a font for the wanted codes. All memory that a cut needs before
    /// its file is made is asked for here.
    ///
    /// # Errors
    ///
    /// `NoMemory` if out of memory.
    pub fn new(
        alloc: A,
        font: &'f Font<'a>,
        wanted: &'f Wanted<A>,
    ) -> Result<CutOf<'f, 'a, A>, NoMemory>
        ensures source { IfOk result (λ source. source ≡ (font.entry.now, Some wanted.entry.now)) }
        ensures memory { OnErr result (IsRefused A.refuses) }
    {
        let selection = Selection::full(alloc, font, Some(wanted))?;
        Ok(CutOf { selection })
    }
}

impl<'f, 'a, A: Allocator> Source for CutOf<'f, 'a, A> {
    ghost use Rattle.font_theory.specs.Content.{content};
    ghost use Rattle.font_theory.specs.Kinds.{font_of};
    ghost use Rattle.font_theory.specs.declared.kinds.Kind.TheVariants.{Full};
    ghost use Rattle.font_subset.specs.KeptGlyphs.{codes_asked, wanted_in};

    ghost content_of = { λ c. content (font_of Full c.0) (wanted_in (codes_asked c.1)) };

    fn recall_laws(&self) {
        self.selection.recall_laws();
    }

    fn copied(&self, slot: usize) -> Option<&[u8]> {
        self.selection.copied(slot)
    }

    fn head(&self) -> &[u8] {
        self.selection.head()
    }

    fn glyph_count(&self) -> u16 {
        self.selection.glyph_count()
    }

    fn next_run(&self, from: u32) -> Option<Run> {
        self.selection.next_run(from)
    }

    fn keeps(&self, g: u16) -> bool {
        self.selection.keeps(g)
    }

    fn next_kept(&self, from: u16) -> u16 {
        self.selection.next_kept(from)
    }

    fn outline_of(&self, g: u16) -> &[u8] {
        self.selection.outline_of(g)
    }
}
