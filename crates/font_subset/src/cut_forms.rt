//! The forms of a cut, which are this project's own: a font's file is that of its content for all codes, as
//! it is written now or as it was written before.
ghost use Rattle.std.specs.Prelude.{◌≡◌, ◌≤◌, length, None, Some, IfOk, IsTrue, OnErr, ◌↔◌};
ghost use Rattle.sfnt_bytes.specs.Memory.{IsRefused};
ghost use Rattle.sfnt_bytes.specs.declared.directory.TheConstants.{MAX_FILE};
ghost use Rattle.codes.specs.CharacterMap.{is_mapped};
ghost use Rattle.codes.specs.Wanted.{member};
ghost use Rattle.font_file.specs.Font.{map_of};
ghost use Rattle.font_theory.specs.Cut.{IsCurrent, Under, Writes, is_current};
ghost use Rattle.font_theory.specs.Content.{Content, content};
ghost use Rattle.font_theory.specs.Kinds.{format_of, spelled_by};
ghost use Rattle.font_theory.specs.declared.kinds.Kind.TheVariants.{Full};
ghost use Rattle.font_subset.specs.CutOfFont.{IsCutForSome, IsFormIn, IsFormOf, cut_form_of};
ghost use Rattle.font_subset.specs.CutOfKind.{IsCutIn, kind_form, own_of};
ghost use Rattle.font_subset.specs.KeptGlyphs.{all_asked, asked, wanted_in};

use crate::accepted::recall_accepted;
use crate::font_of_kind::FontOfKind;
use crate::forms::{CutForm, form_of_file};
use crate::kind_source::CutOfKind;
use crate::presence::glyphs_there;
use crate::selection::Selection;
use font_file::Font;
use font_map::{Chart, Wanted, WantedError};
use font_theory::Kind;
use font_write::Source;
use sfnt_bytes::{Memory, NoMemory};

/// Returns the form in which a font's file is its own cut of the font's kind for all codes and all glyphs,
/// as [`cut_form`] does for full cuts. Lean, layout and variable cuts have one form: `Current`.
///
/// # Errors
///
/// `NoMemory` if out of memory.
pub fn form_of_kind<A: Memory + Copy>(
    alloc: A,
    font: &FontOfKind<'_, '_, A>,
) -> Result<CutForm, NoMemory>
    ensures exact { IfOk result (λ form. form ≡ kind_form font.now.0 font.now.1) }
    ensures form { IfOk result (IsFormIn font.now.0 font.now.1) }
    ensures memory { OnErr result (IsRefused A.refuses) }
{
    font.recall_accepted();
    let source = CutOfKind::new(alloc, font, None, None)?;
    Ok(source.form())
}

/// Returns what all codes and all glyphs select of a font, with the runs of its map in a list, and the form
/// in which the font's file is its own cut of the font's kind for these.
///
/// # Errors
///
/// `NoMemory` if out of memory.
pub fn listed_form<'f, 'a, A: Memory + Copy>(
    alloc: A,
    font: &'f FontOfKind<'f, 'a, A>,
) -> Result<(Selection<'f, 'a, A>, CutForm), NoMemory>
    ensures selection { IfOk result (λ both. both.0 ≡ (font.entry.now.0, (font.entry.now.1, all_asked))) }
    ensures form { IfOk result (λ both. both.1 ≡ kind_form font.entry.now.0 font.entry.now.1) }
    ensures memory { OnErr result (IsRefused A.refuses) }
{
    let selection = Selection::with_runs(alloc, font)?;
    let source = CutOfKind::of(alloc, selection)?;
    let form = source.form();
    Ok((source.into_selection(), form))
}

/// Returns whether a font's file is its own cut of the font's kind for all codes and all glyphs, as it is
/// written today. No cut is built for that.
///
/// # Errors
///
/// `NoMemory` if out of memory.
///
/// # Example
///
/// From the test `lean_cut_form_of_files` of `cut_tests`:
///
/// ```
/// let (lean, made) = (Font::open(&LEAN_AACUTE)?, Font::open(&AACUTE)?);
/// let base = Font::open(&BASE6)?;
/// assert_eq!(rt; is_of_kind(rt.alloc(), &FontOfKind::lean(&lean)), Ok(true));
/// assert_eq!(rt; is_of_kind(rt.alloc(), &FontOfKind::lean(&base)), Ok(false));
/// ```
pub fn is_of_kind<A: Memory + Copy>(
    alloc: A,
    font: &FontOfKind<'_, '_, A>,
) -> Result<bool, NoMemory>
    ensures exact { IfOk result (λ b. b ≡ is_current (format_of font.now.0) font.now.1) }
    ensures form { IfOk result (λ b. IsTrue b ↔ IsCurrent (format_of font.now.0) font.now.1) }
    ensures memory { OnErr result (IsRefused A.refuses) }
{
    font.recall_accepted();
    let form = form_of_kind(alloc, font)?;
    Ok(matches!(form, CutForm::Current))
}

/// Returns the form in which a font's file is its own cut for all codes: `Current` where it is that cut as
/// it is written, `Old` where it is that cut as the first profile had it, and else `Not`. No cut is built
/// for that.
///
/// # Errors
///
/// `NoMemory` if out of memory.
pub fn cut_form<A: Memory + Copy>(alloc: A, font: &Font<'_>) -> Result<CutForm, NoMemory>
    ensures exact { IfOk result (λ form. form ≡ cut_form_of font.now) }
    ensures form { IfOk result (IsFormOf font.now) }
    ensures memory { OnErr result (IsRefused A.refuses) }
{
    recall_accepted(font);
    let full = FontOfKind::full(font);
    form_of_kind(alloc, &full)
}

/// Returns whether a font's file is its own cut for all codes, as it is written today. Of an old cut
/// that is false; [`cut_form`] distinguishes it from other files. No cut is built for that.
///
/// # Errors
///
/// `NoMemory` if out of memory.
///
/// # Example
///
/// From the test `cut_form_of_files` of `cut_tests`:
///
/// ```
/// let (font, made) = (Font::open(&BASE6)?, Font::open(&AACUTE)?);
/// assert_eq!(rt; is_cut(rt.alloc(), &made), Ok(true));
/// assert_eq!(rt; is_cut(rt.alloc(), &font), Ok(false));
/// ```
pub fn is_cut<A: Memory + Copy>(alloc: A, font: &Font<'_>) -> Result<bool, NoMemory>
    ensures exact { IfOk result (λ b. b ≡ is_current (format_of Full) font.now) }
    ensures form { IfOk result (λ b. IsTrue b ↔ IsCurrent (format_of Full) font.now) }
    ensures memory { OnErr result (IsRefused A.refuses) }
{
    is_of_kind(alloc, &FontOfKind::full(font))
}

// Returns the codes that a font maps. The runs ascend, so each is put after the codes that are in the
// set, and none is refused as a bad range.
fn mapped_set<A: Memory + Copy>(alloc: A, font: &Font<'_>) -> Result<Wanted<A>, NoMemory>
    ensures codes { IfOk result (λ wanted. member wanted ≡ is_mapped (map_of font.now)) }
    ensures memory { OnErr result (IsRefused A.refuses) }
{
    let chart = Chart::of(alloc, font.mapping())?;
    let mut codes = Wanted::new(alloc);
    let mut from = 0;
    while let Some(run) = chart.next_run(from) {
        match codes.add(run.first, run.last) {
            Ok(()) => from = run.last + 1,
            Err(WantedError::NoMemory) => return Err(NoMemory),
            Err(WantedError::BadRange) => unreachable!(),
        }
    }
    Ok(codes)
}

// Returns the file of a font.
fn file_of<'a>(font: &Font<'a>) -> &'a [u8]
    ensures file { result.now ≡ font.now }
    ensures small { length result.now ≤ MAX_FILE }
{
    recall_accepted(font);
    font.tables().directory().file()
}

// Returns whether a file is that of a content of a kind, in whatever form.
fn is_written<S: Source>(kind: Kind, source: &S, bytes: &[u8]) -> bool
    requires { length bytes.now ≤ MAX_FILE }
    ensures { (K : Content) → S.content_of source.now ≡ spelled_by kind K →
        IsTrue result ↔ Writes (format_of kind) K bytes.now }
{
    !matches!(form_of_file(kind, source, bytes), CutForm::Not)
}

// Returns whether bytes are the cut of a font for some codes and some glyphs, of the font's kind and in any form.
fn is_cut_for<A: Memory + Copy>(
    alloc: A,
    font: &FontOfKind<'_, '_, A>,
    codes: &Wanted<A>,
    glyphs: &[u16],
    bytes: &[u8],
) -> Result<bool, NoMemory>
    requires { length bytes.now ≤ MAX_FILE }
    ensures written { IfOk result (λ b. IsTrue b ↔ Writes (format_of font.now.0)
        (content ((format_of font.now.0).font font.now.1) (wanted_in (asked (Some codes.now) (Some glyphs.now))))
        bytes.now) }
    ensures memory { OnErr result (IsRefused A.refuses) }
{
    let source = CutOfKind::new(alloc, font, Some(codes), Some(glyphs))?;
    Ok(is_written(font.kind(), &source, bytes))
}

// Returns whether a font's file is the cut of another font, of that font's kind, for the codes that it maps and the
// glyphs that are there.
fn is_cut_for_own<A: Memory + Copy>(
    alloc: A,
    cut: &FontOfKind<'_, '_, A>,
    font: &FontOfKind<'_, '_, A>,
) -> Result<bool, NoMemory>
    ensures written { IfOk result (λ b. IsTrue b ↔ Writes (format_of font.now.0)
        (content ((format_of font.now.0).font font.now.1) (own_of cut.now.0 cut.now.1)) cut.now.1) }
    ensures memory { OnErr result (IsRefused A.refuses) }
{
    let codes = mapped_set(alloc, cut.font())?;
    let glyphs = glyphs_there(alloc, cut)?;
    is_cut_for(alloc, font, &codes, &glyphs, file_of(cut.font()))
}

/// Returns whether the file of `cut` is a cut of `font` for something that is wanted, of the kind for which both were
/// opened and in any form: then it is the cut for the codes that it maps itself and the glyphs that are there. No cut is
/// built for that.
///
/// # Errors
///
/// `NoMemory` if out of memory.
///
/// # Example
///
/// From the test `lean_cut_form_of_files` of `cut_tests`: a cut may stand for the font.
///
/// ```
/// let (lean, made) = (Font::open(&LEAN_AACUTE)?, Font::open(&AACUTE)?);
/// let (cut, font) = (FontOfKind::lean(&lean), FontOfKind::lean(&made));
/// assert_eq!(rt; belongs(rt.alloc(), &cut, &font), Ok(true));
/// ```
pub fn belongs<A: Memory + Copy>(
    alloc: A,
    cut: &FontOfKind<'_, '_, A>,
    font: &FontOfKind<'_, '_, A>,
) -> Result<bool, NoMemory>
    requires { cut.now.0 ≡ font.now.0 }
    ensures exact { IfOk result (λ b. IsTrue b ↔ Under (format_of font.now.0) cut.now.1 font.now.1) }
    ensures some_wanted { IfOk result (λ b. IsTrue b ↔ IsCutIn font.now.0 font.now.1 cut.now.1) }
    ensures memory { OnErr result (IsRefused A.refuses) }
{
    cut.recall_accepted();
    font.recall_accepted();
    is_cut_for_own(alloc, cut, font)
}

/// Returns whether the file of `cut` is a cut of `font` for some codes, in any form of a cut: then it is
/// the cut for the codes that it maps itself. No cut is built for that.
///
/// # Errors
///
/// `NoMemory` if out of memory.
pub fn is_cut_of<A: Memory + Copy>(
    alloc: A,
    cut: &Font<'_>,
    font: &Font<'_>,
) -> Result<bool, NoMemory>
    ensures exact { IfOk result (λ b. IsTrue b ↔ Under (format_of Full) cut.now font.now) }
    ensures some_codes { IfOk result (λ b. IsTrue b ↔ IsCutForSome font.now cut.now) }
    ensures memory { OnErr result (IsRefused A.refuses) }
{
    recall_accepted(font);
    belongs(alloc, &FontOfKind::full(cut), &FontOfKind::full(font))
}
