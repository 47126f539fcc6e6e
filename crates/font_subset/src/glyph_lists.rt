//! Lists of glyphs by their numbers.
ghost use Rattle.std.specs.Prelude.{◌≡◌, ◌++◌, length, IfOk, OnErr, OnOk};
ghost use Rattle.sfnt_bytes.specs.Memory.{IsRefused};
ghost use Rattle.font_glyph.specs.Marks.{has};
ghost use Rattle.font_tables.specs.Fields.{glyph_count_of};
ghost use Rattle.font_theory.specs.Content.{everything, is_kept};
ghost use Rattle.font_theory.specs.Kinds.{font_of};
ghost use Rattle.font_subset.specs.KeptGlyphs.{numbers_in};

use crate::font_of_kind::FontOfKind;
use crate::selection::Selection;
use font_glyph::Marks;
use sfnt_bytes::{Memory, NoMemory};

/// Puts the marked glyphs below a count at the end of a list, ascending.
///
/// # Errors
///
/// `NoMemory` if out of memory.
pub(crate) fn list_marks<A: Memory>(
    glyphs: &mut Vec<u16, A>,
    marks: &Marks<A>,
    count: u16,
) -> Result<(), NoMemory>
    requires { length marks.now ≡ count }
    ensures listed { OnOk result (glyphs.new.items ≡ glyphs.old.items ++ numbers_in (has marks.now) count) }
    ensures memory { OnErr result (IsRefused A.refuses) }
{
    let mut next = marks.next_from(0);
    while next < usize::from(count) {
        A::push(glyphs, next as u16)?;
        next = marks.next_from(next + 1);
    }
    Ok(())
}

/// Lists the marked glyphs below a count, ascending.
///
/// # Errors
///
/// `NoMemory` if out of memory.
pub(crate) fn listed_marks<A: Memory>(
    alloc: A,
    marks: &Marks<A>,
    count: u16,
) -> Result<Vec<u16, A>, NoMemory>
    requires { length marks.now ≡ count }
    ensures glyphs { IfOk result (λ glyphs. glyphs.items ≡ numbers_in (has marks.now) count) }
    ensures memory { OnErr result (IsRefused A.refuses) }
{
    let mut glyphs = Vec::new(alloc);
    list_marks(&mut glyphs, marks, count)?;
    Ok(glyphs)
}

/// Lists the glyphs that a font keeps of itself for cuts of a kind, ascending: those that components lead to from .notdef,
/// from the glyphs of all mapped codes, and from all glyphs that are there. A cut for these and for all codes is the whole
/// of a font that is a cut itself.
///
/// # Errors
///
/// `NoMemory` if out of memory.
pub fn kept_glyphs<A: Memory + Copy>(
    alloc: A,
    font: &FontOfKind<'_, '_, A>,
) -> Result<Vec<u16, A>, NoMemory>
    ensures glyphs { IfOk result (λ glyphs. glyphs.items
        ≡ numbers_in (is_kept (font_of font.now.0 font.now.1) everything) (glyph_count_of font.now.1)) }
    ensures memory { OnErr result (IsRefused A.refuses) }
{
    let count = font.font().tables().glyph_count();
    let selection = Selection::new(alloc, font, None, None)?;
    let listed = listed_marks(alloc, selection.kept(), count)?;
    Ok(listed)
}
