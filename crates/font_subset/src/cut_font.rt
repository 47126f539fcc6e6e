//! The cut of a font for a wanted set, in memory or sent: a font file in its turn. OpenType 1.9,
//! Organization of an OpenType Font.
ghost use Rattle.std.specs.Prelude.{◌≡◌, ◌≤◌, length, false, true, Err, IfErr, IfOk, IsSome, MatchResult, OnOk, Some, option_copied};
ghost use Rattle.sfnt_bytes.specs.Memory.{IsRefused};
ghost use Rattle.sfnt_bytes.specs.declared.directory.TheConstants.{MAX_FILE};
ghost use Rattle.codes.specs.Wanted.{member};
ghost use Rattle.font_subset.specs.CutOfFont.{IsCutRefusal, IsSound, IsWritten, StopsCut, full_cut};
ghost use Rattle.font_subset.specs.CutOfKind.{IsSoundCut, opened_font_cut};
ghost use Rattle.font_subset.specs.KeptGlyphs.{asked, wanted_in};
ghost use Rattle.streams.specs.Outlet.{HasSent, WentOut, broken_of, fresh_of, writer_of};
ghost use Rattle.font_write.specs.declared.cut_error.CutError.TheVariants.{NoMemory as CutNoMemory};
ghost use Rattle.font_write.specs.declared.cut_error.CutIntoError.TheVariants.{NoMemory as IntoNoMemory};

use crate::font_to_cut::{FontToCut, numbers_of};
use crate::kind_source::CutOfKind;
use crate::selection::Seeds;
use font_file::Font;
use font_map::Wanted;
use font_write::{CutError, CutIntoError, file_in_memory, send_whole};
use sfnt_bytes::Memory;
use std::io::Write;
use streams::Outlet;

// Returns the cut of an opened font, or the refusal that applies.
fn cut_of_opened<A: Memory + Copy>(
    alloc: A,
    font: &FontToCut<'_, '_, A>,
    codes: Option<&Wanted<A>>,
    glyphs: Option<&[u16]>,
) -> Result<Vec<u8, A>, CutError>
    ensures exact { MatchResult result (λ v. IsWritten (opened_font_cut font.now
        (wanted_in (asked (option_copied codes.entry) (option_copied glyphs.entry)))) v.items)
        (IsCutRefusal (opened_font_cut font.now
        (wanted_in (asked (option_copied codes.entry) (option_copied glyphs.entry))))) }
    ensures memory { result ≡ Err CutNoMemory → IsRefused A.refuses }
{
    let opened = font.font();
    let seeds = Seeds::of(alloc, opened.font(), codes)?;
    let numbers = font.numbers_beside(alloc, &seeds, glyphs)?;
    let source = CutOfKind::of_seeds(alloc, opened, seeds, numbers_of(&numbers))?;
    file_in_memory(alloc, &source)
}

/// Returns the cut of a font, of the kind for which it was opened, in a vector of just its size. It is for the wanted
/// codes, or for all if no set is given, and for the glyphs of these numbers, or for all if no list is given. Every glyph
/// keeps its number. Numbers of glyphs that are not there do not count, nor do numbers at all in full cuts.
///
/// If the font was opened for cuts that are closed, the cut also has each glyph that links of `GSUB` lead to from there,
/// whatever the order of the text and its features. A shaper may first replace characters, as U+65 U+301 by U+E9: the
/// wanted codes have to include those that the text needs.
///
/// # Errors
///
/// Those of [`cut`].
///
/// # Example
///
/// From the test `lean_cut_of_aacute` of `cut_tests`:
///
/// ```
/// let font = Font::open(&BASE6)?;
/// let wanted = wanted_of(rt.alloc(), &[(0xC1, 0xC1)])?;
/// let lean = FontToCut::open(rt.alloc(), Kind::Lean, false, &font)?;
/// let made = cut_of_kind(rt.alloc(), &lean, Some(&wanted), Some(&[]))?;
/// assert_eq!(rt; made.as_slice(), LEAN_AACUTE.as_slice());
/// ```
pub fn cut_of_kind<A: Memory + Copy>(
    alloc: A,
    font: &FontToCut<'_, '_, A>,
    codes: Option<&Wanted<A>>,
    glyphs: Option<&[u16]>,
) -> Result<Vec<u8, A>, CutError>
    ensures exact { MatchResult result (λ v. v.items ≡ opened_font_cut font.now
        (wanted_in (asked (option_copied codes.entry) (option_copied glyphs.entry))))
        (IsCutRefusal (opened_font_cut font.now
        (wanted_in (asked (option_copied codes.entry) (option_copied glyphs.entry))))) }
    ensures small { IfOk result (λ v. length v.items ≤ MAX_FILE) }
    ensures sound { IfOk result (λ v. IsSoundCut font.now
        (wanted_in (asked (option_copied codes.entry) (option_copied glyphs.entry))) v.items) }
    ensures memory { result ≡ Err CutNoMemory → IsRefused A.refuses }
{
    font.recall_opened();
    cut_of_opened(alloc, font, codes, glyphs)
}

/// Returns the cut of a font for the wanted codes, as one file in a vector of just its size. Every glyph
/// keeps its number; `docs/FORMAT.md` has the format.
///
/// # Errors
///
/// `NoMemory` if out of memory, and `TooLarge` where the cut would have more than
/// [`MAX_FILE`](sfnt_bytes::MAX_FILE) bytes.
///
/// # Example
///
/// From `cut_of` in `cut_tests`, by which its tests make their cuts:
///
/// ```
/// let font = Font::open(file)?;
/// let wanted = wanted_of(alloc, ranges)?;
/// let made = cut(alloc, &font, &wanted)?;
/// Ok(made)
/// ```
pub fn cut<A: Memory + Copy>(
    alloc: A,
    font: &Font<'_>,
    wanted: &Wanted<A>,
) -> Result<Vec<u8, A>, CutError>
    ensures exact { MatchResult result (λ v. v.items ≡ full_cut font.now (member wanted.now))
        (IsCutRefusal (full_cut font.now (member wanted.now))) }
    ensures small { IfOk result (λ v. length v.items ≤ MAX_FILE) }
    ensures sound { IfOk result (λ v. IsSound font.now (member wanted.now) v.items) }
    ensures memory { result ≡ Err CutNoMemory → IsRefused A.refuses }
{
    cut_of_kind(alloc, &FontToCut::full(font), Some(wanted), Some(&[]))
}

/// Sends the cut of a font for what is wanted, as [`cut_of_kind`] returns it, and returns its length. All memory is asked
/// for before the first write: that for the glyphs that it keeps and for the tables that it has anew, and none for the
/// cut itself.
///
/// # Errors
///
/// Those of [`cut_into`].
pub fn cut_of_kind_into<W: Write, A: Memory + Copy>(
    alloc: A,
    font: &FontToCut<'_, '_, A>,
    codes: Option<&Wanted<A>>,
    glyphs: Option<&[u16]>,
    out: &mut Outlet<W>,
) -> Result<u64, CutIntoError>
    requires { fresh_of out.old ≡ true }
    ensures size { IfOk result (λ size. size ≡ length (opened_font_cut font.now
        (wanted_in (asked (option_copied codes.entry) (option_copied glyphs.entry))))) }
    ensures small { OnOk result (length (opened_font_cut font.now
        (wanted_in (asked (option_copied codes.entry) (option_copied glyphs.entry)))) ≤ MAX_FILE) }
    ensures sent { OnOk result (IsSome (W.contents (writer_of out.old)) →
        HasSent W.contents out.new (opened_font_cut font.now
        (wanted_in (asked (option_copied codes.entry) (option_copied glyphs.entry))))) }
    ensures sends { OnOk result (WentOut W.contents out.old out.new (opened_font_cut font.now
        (wanted_in (asked (option_copied codes.entry) (option_copied glyphs.entry))))) }
    ensures unbroken { OnOk result (broken_of out.new ≡ false) }
    ensures stops { IfErr result (StopsCut W.contents out.old out.new (opened_font_cut font.now
        (wanted_in (asked (option_copied codes.entry) (option_copied glyphs.entry))))) }
    ensures sound { OnOk result (IsSoundCut font.now
        (wanted_in (asked (option_copied codes.entry) (option_copied glyphs.entry))) (opened_font_cut font.now
        (wanted_in (asked (option_copied codes.entry) (option_copied glyphs.entry))))) }
    ensures memory { result ≡ Err IntoNoMemory → IsRefused A.refuses }
{
    font.recall_opened();
    let opened = font.font();
    let seeds = Seeds::of(alloc, opened.font(), codes)?;
    let numbers = font.numbers_beside(alloc, &seeds, glyphs)?;
    let source = CutOfKind::of_seeds(alloc, opened, seeds, numbers_of(&numbers))?;
    send_whole(&source, out)
}

/// Sends the cut of a font for the wanted codes, and returns how many bytes it has. All memory is asked
/// for before the first write: that for the glyphs that it keeps, and none for the cut itself. The cut
/// is sent in short pieces, so a writer that costs something at each call should gather them.
///
/// # Errors
///
/// `NoMemory` and `TooLarge` as those of [`cut`]: nothing was sent. `WriteFault` where a write failed:
/// the outlet is broken, and a front of the cut went out.
///
/// # Example
///
/// From the test `sends_the_cut` of `cut_tests`:
///
/// ```
/// let font = Font::open(&BASE6)?;
/// let wanted = wanted_of(rt.alloc(), &[(0xC1, 0xC1)])?;
/// let mut outlet = Outlet::new(Vec::new(rt.alloc()));
/// let answer = cut_into(rt.alloc(), &font, &wanted, &mut outlet);
/// assert_eq!(rt; outlet.into_inner().as_slice(), AACUTE.as_slice());
/// ```
pub fn cut_into<W: Write, A: Memory + Copy>(
    alloc: A,
    font: &Font<'_>,
    wanted: &Wanted<A>,
    out: &mut Outlet<W>,
) -> Result<u64, CutIntoError>
    requires { fresh_of out.old ≡ true }
    ensures size { IfOk result (λ size. size ≡ length (full_cut font.now (member wanted.now))) }
    ensures small { OnOk result (length (full_cut font.now (member wanted.now)) ≤ MAX_FILE) }
    ensures sent { OnOk result (IsSome (W.contents (writer_of out.old)) →
        HasSent W.contents out.new (full_cut font.now (member wanted.now))) }
    ensures sends { OnOk result (WentOut W.contents out.old out.new (full_cut font.now (member wanted.now))) }
    ensures unbroken { OnOk result (broken_of out.new ≡ false) }
    ensures stops { IfErr result
        (StopsCut W.contents out.old out.new (full_cut font.now (member wanted.now))) }
    ensures sound { OnOk result
        (IsSound font.now (member wanted.now) (full_cut font.now (member wanted.now))) }
    ensures memory { result ≡ Err IntoNoMemory → IsRefused A.refuses }
{
    cut_of_kind_into(alloc, &FontToCut::full(font), Some(wanted), Some(&[]), out)
}
