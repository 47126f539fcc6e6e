//! The glyphs of a font that may be wanted by number: those that are there, which have an outline or a part in a table that
//! is divided. OpenType 1.9, glyf.
ghost use Rattle.std.specs.Prelude.{◌≡◌, ◌≢◌, ◌<◌, ◌≤◌, ◌&&◌, ◌||◌, [], ℕ, length, nat_eq, None, Some, IfOk, IsTrue, OnErr, OnOk, false, option_copied, unwrap_or};
ghost use Rattle.sfnt_bytes.specs.Directory.{kept_tag, table_of};
ghost use Rattle.sfnt_bytes.specs.Memory.{IsRefused};
ghost use Rattle.sfnt_bytes.specs.declared.tag.TheConstants.{LOCA as LOCA_SLOT};
ghost use Rattle.font_tables.specs.Outlines.{outline_of};
ghost use Rattle.font_tables.specs.Fields.{glyph_count_of};
ghost use Rattle.font_theory.specs.Kinds.{font_of};
ghost use Rattle.font_theory.specs.declared.kinds.Kind.TheVariants.{Full};
ghost use Rattle.font_subset.specs.Inside.{AreNumbered, is_between};
ghost use Rattle.font_subset.specs.KeptGlyphs.{glyphs_wanted};

use crate::accepted::{outline, recall_accepted};
use crate::font_of_kind::FontOfKind;
use divided_tables::OpenTables;
use font_file::Font;
use font_glyph::Marks;
use font_tables::read_offset;
use font_theory::Kind;
use sfnt_bytes::{Directory, LOCA, Memory, NoMemory};
use std::alloc::Allocator;
use std::marker::Model;

/// How many glyphs are looked at in one step.
const BLOCK: u16 = 64;

// Returns `loca` of a file.
fn table_loca<'a>(directory: &Directory<'a>) -> &'a [u8]
    ensures { result.now ≡ unwrap_or (table_of directory.now (kept_tag LOCA_SLOT)) [] }
{
    directory.table(LOCA).unwrap_or(&[])
}

// Tells whether some glyphs of an accepted font, from one on and below another, have no outlines: then the offset of the
// first is that after the last, as offsets do not fall.
fn has_no_outlines(font: &Font<'_>, from: u16, to: u16) -> bool
    requires order { from < to }
    requires within { to ≤ glyph_count_of font.now }
    ensures { IsTrue result → (g : ℕ) → from ≤ g → g < to → length (outline_of font.now g) ≡ 0 }
{
    recall_accepted(font);
    let tables = font.tables();
    let (form, loca) = (tables.loca_format(), table_loca(tables.directory()));
    read_offset(form, loca, usize::from(from)) == read_offset(form, loca, usize::from(to))
}

/// What tells of a font which of its glyphs are there.
pub(crate) struct Presence<'f, 'a, A: Allocator> {
    font: &'f FontOfKind<'f, 'a, A>,
    tables: &'f OpenTables<'a, A>,
}

// Its value is the kind, and the file of the font.
impl<'f, 'a, A: Allocator> Model for Presence<'f, 'a, A> {
    ghost use Rattle.std.specs.Prelude.{ℕ, List};
    ghost use Rattle.font_theory.specs.declared.kinds.Kind.{Kind};
    ghost use Rattle.font_subset.specs.Inside.{IsPresence};

    ghost Value = { Kind × List ℕ };

    ghost view = { λ p. p.font.now };

    ghost invariant = { λ p. IsPresence p.font.now.0 p.font.now.1 p.tables.now };
}

impl<'f, 'a, A: Allocator> Drop for Presence<'f, 'a, A> {
    fn drop(self) {
        let Presence { font: _, tables: _ } = self;
    }
}

impl<'f, 'a, A: Allocator> Presence<'f, 'a, A> {
    fn of(font: &'f FontOfKind<'f, 'a, A>) -> Presence<'f, 'a, A>
        requires { font.now.0 ≢ Full }
        ensures { result ≡ font.entry.now }
    {
        font.recall_accepted();
        let tables = font.divided();
        Presence { font, tables }
    }

    fn glyph_count(&self) -> u16
        ensures count { result ≡ glyph_count_of self.now.1 }
        ensures some { 0 < result }
    {
        self.font.font().tables().glyph_count()
    }

    // Tells whether some glyphs, from one on and below another, are surely not there. It is quick for most glyphs of a cut.
    fn has_none(&self, from: u16, to: u16) -> bool
        requires order { from < to }
        requires within { to ≤ glyph_count_of self.now.1 }
        ensures { IsTrue result → (g : ℕ) → from ≤ g → g < to →
            (font_of self.now.0 self.now.1).there g ≡ false }
    {
        if !has_no_outlines(self.font.font(), from, to) {
            return false;
        }
        self.tables.has_none(from, to)
    }

    fn has(&self, g: u16) -> bool
        requires { g < glyph_count_of self.now.1 }
        ensures { result ≡ (font_of self.now.0 self.now.1).there g }
    {
        if !outline(self.font.font(), g).is_empty() {
            return true;
        }
        self.tables.has(g)
    }
}

// Marks a glyph, where there is such a glyph and it is there. Of one that is marked already nothing is read.
fn mark_if_there<A: Allocator>(marks: &mut Marks<A>, presence: &Presence<'_, '_, A>, g: u16)
    requires { length marks.old ≡ glyph_count_of presence.now.1 }
    ensures { AreNumbered (font_of presence.now.0 presence.now.1).there (nat_eq g) marks.old marks.new }
{
    if g < presence.glyph_count() && !marks.has(g) && presence.has(g) {
        marks.set(g);
    }
}

// Marks those of some glyphs that are there.
fn mark_listed<A: Allocator>(marks: &mut Marks<A>, presence: &Presence<'_, '_, A>, numbers: &[u16])
    requires { length marks.old ≡ glyph_count_of presence.now.1 }
    ensures { AreNumbered (font_of presence.now.0 presence.now.1).there
        (glyphs_wanted (Some numbers.now)) marks.old
        marks.new }
{
    for g in numbers {
        mark_if_there(marks, presence, *g);
    }
}

// Marks those of the glyphs from one on and below another that are there.
fn mark_between<A: Allocator>(
    marks: &mut Marks<A>,
    presence: &Presence<'_, '_, A>,
    from: u16,
    to: u16,
)
    requires count { length marks.old ≡ glyph_count_of presence.now.1 }
    requires order { from < to }
    requires within { to ≤ glyph_count_of presence.now.1 }
    ensures { AreNumbered (font_of presence.now.0 presence.now.1).there
        (is_between from to) marks.old marks.new }
{
    if presence.has_none(from, to) {
        return;
    }
    for g in from..to {
        mark_if_there(marks, presence, g);
    }
}

// Marks all glyphs that are there.
fn mark_all<A: Allocator>(marks: &mut Marks<A>, presence: &Presence<'_, '_, A>)
    requires { length marks.old ≡ glyph_count_of presence.now.1 }
    ensures { AreNumbered (font_of presence.now.0 presence.now.1).there
        (glyphs_wanted None) marks.old marks.new }
{
    let count = presence.glyph_count();
    let mut from = 0;
    while BLOCK < count - from {
        mark_between(marks, presence, from, from + BLOCK);
        from += BLOCK;
    }
    mark_between(marks, presence, from, count);
}

/// Returns the marks with those of the glyphs that are wanted by number and are there: of those in a list, or of all.
pub(crate) fn with_numbers<A: Allocator>(
    mut marks: Marks<A>,
    font: &FontOfKind<'_, '_, A>,
    numbers: Option<&[u16]>,
) -> Marks<A>
    requires { length marks ≡ glyph_count_of font.now.1 }
    ensures { AreNumbered (font_of font.now.0 font.now.1).there
        (glyphs_wanted (option_copied numbers.entry)) marks
        result }
{
    match font.kind() {
        Kind::Full => marks,
        Kind::Lean | Kind::Layout | Kind::Variable => match numbers {
            Some(numbers) => {
                mark_listed(&mut marks, &Presence::of(font), numbers);
                marks
            }
            None => {
                mark_all(&mut marks, &Presence::of(font));
                marks
            }
        },
    }
}

// Puts a glyph at the end of a list, where it is there.
fn list_if_there<A: Memory>(
    glyphs: &mut Vec<u16, A>,
    presence: &Presence<'_, '_, A>,
    g: u16,
) -> Result<(), NoMemory>
    requires { g < glyph_count_of presence.now.1 }
    ensures listed { OnOk result ((h : ℕ) → glyphs_wanted (Some glyphs.new.items) h
        ≡ (glyphs_wanted (Some glyphs.old.items) h
        || (nat_eq g h && (font_of presence.now.0 presence.now.1).there h))) }
    ensures memory { OnErr result (IsRefused A.refuses) }
{
    if presence.has(g) {
        A::push(glyphs, g)?;
    }
    Ok(())
}

// Lists the glyphs that are there, where some may be.
fn list_there<A: Memory>(alloc: A, presence: &Presence<'_, '_, A>) -> Result<Vec<u16, A>, NoMemory>
    ensures glyphs { IfOk result (λ glyphs. (g : ℕ) →
        glyphs_wanted (Some glyphs.items) g ≡ (font_of presence.now.0 presence.now.1).there g) }
    ensures memory { OnErr result (IsRefused A.refuses) }
{
    let mut glyphs = Vec::new(alloc);
    for g in 0..presence.glyph_count() {
        list_if_there(&mut glyphs, presence, g)?;
    }
    Ok(glyphs)
}

/// Lists the glyphs that are there.
///
/// # Errors
///
/// `NoMemory` if out of memory.
pub(crate) fn glyphs_there<A: Memory>(
    alloc: A,
    font: &FontOfKind<'_, '_, A>,
) -> Result<Vec<u16, A>, NoMemory>
    ensures glyphs { IfOk result (λ glyphs. (g : ℕ) →
        glyphs_wanted (Some glyphs.items) g ≡ (font_of font.now.0 font.now.1).there g) }
    ensures memory { OnErr result (IsRefused A.refuses) }
{
    match font.kind() {
        Kind::Full => Ok(Vec::new(alloc)),
        Kind::Lean | Kind::Layout | Kind::Variable => list_there(alloc, &Presence::of(font)),
    }
}
