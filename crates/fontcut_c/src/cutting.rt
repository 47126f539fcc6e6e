//! The cut of a font that is asked for, written to the caller's room.
ghost use Rattle.std.specs.Prelude.{◌≡◌, MatchResult, None, Some, length, true};
ghost use Rattle.font_file.specs.Font.{font_fault};
ghost use Rattle.fontcut_c.specs.Cutting.{AcceptsRequest, IsCutInRoom, RefusesAsked, RefusesSubset};
ghost use Rattle.fontcut_c.specs.Inside.{IsOpenedFile, IsOpenedForRequest, RefusesOpening, RefusesRequest};
ghost use Rattle.fontcut_c.specs.Requests.{asked_by, has_checked};

use crate::caller_room::write_to;
use crate::glyph_metrics::first_no_glyph;
use crate::refusal::Refusal;
use crate::requests::{Request, is_checked};
use crate::wanted_ranges::first_bad;
use crate::wanted_set::{source_of, wanted_set};
use font_file::{Font, FontError};
use font_subset::{FontToCut, keeps_layout};
use font_theory::Kind;
use std::alloc::Global;

/// Opens a font, which is not tested where a sum of flags says that it was accepted before.
pub(crate) fn opened<'a>(flags: u32, file: &'a [u8]) -> Result<Font<'a>, FontError>
    requires { has_checked flags ≡ true → font_fault file.now ≡ None }
    ensures { MatchResult result (IsOpenedFile file.now) (λ error. font_fault file.now ≡ Some error) }
{
    if is_checked(flags) {
        Ok(Font::open_checked(file))
    } else {
        Font::open(file)
    }
}

/// Tells what is the first that an accepted font refuses of a request: a bad range, or a number that is no glyph.
pub(crate) fn check_request(font: &Font<'_>, request: &Request<'_>) -> Result<(), Refusal>
    requires { font_fault font.now ≡ None }
    ensures { MatchResult result (λ _. AcceptsRequest font.now (asked_by request.now))
        (RefusesAsked font.now (asked_by request.now)) }
{
    if let Some(index) = first_bad(request.wanted_ranges()) {
        return Err(Refusal::BadRange(index));
    }
    match first_no_glyph(font, request.wanted_glyphs()) {
        Some(index) => Err(Refusal::NoGlyph(index)),
        None => Ok(()),
    }
}

/// Opens a font of which something is asked, or returns the first of what refuses that.
pub(crate) fn opened_for_request<'a>(
    file: &'a [u8],
    request: &Request<'_>,
) -> Result<Font<'a>, Refusal>
    requires { has_checked (asked_by request.now).flags ≡ true → font_fault file.now ≡ None }
    ensures { MatchResult result (λ font. (font ≡ file.now) × AcceptsRequest file.now (asked_by request.now))
        (RefusesRequest file.now (asked_by request.now)) }
{
    let font = opened(request.flags, file)?;
    check_request(&font, request)?;
    Ok(font)
}

/// Opens an accepted font for cuts of a kind, which are closed under links where that is asked for and cuts of the kind
/// have any.
pub(crate) fn opened_to_cut<'f, 'a>(
    alloc: Global,
    kind: Kind,
    font: &'f Font<'a>,
    request: &Request<'_>,
) -> Result<FontToCut<'f, 'a>, Refusal>
    requires { font_fault font.now ≡ None }
    ensures { MatchResult result
        (λ opened. IsOpenedForRequest kind font.entry.now (asked_by request.now) opened)
        (RefusesOpening kind font.entry.now (asked_by request.now)) }
{
    let opened = FontToCut::open(alloc, kind, request.closes() && keeps_layout(kind), font)?;
    Ok(opened)
}

// Writes the cut of an opened font, of a kind, to the front of room, and returns its length.
fn write_cut(
    alloc: Global,
    kind: Kind,
    font: &Font<'_>,
    request: &Request<'_>,
    out: &mut [u8],
) -> Result<u64, Refusal>
    requires { AcceptsRequest font.now (asked_by request.now) }
    ensures { MatchResult result (IsCutInRoom kind font.now (asked_by request.now) out.old out.new)
        (λ refusal. (out.new ≡ out.old)
        × RefusesSubset kind font.now (asked_by request.now) (length out.old) refusal) }
{
    let opened = opened_to_cut(alloc, kind, font, request)?;
    let set = wanted_set(alloc, &opened, request)?;
    let source = source_of(alloc, opened.font(), &set)?;
    write_to(&source, out)
}

/// Writes the cut of a font that is asked for, of a kind, to the front of room, and returns its length.
pub(crate) fn cut_to(
    alloc: Global,
    kind: Kind,
    file: &[u8],
    request: &Request<'_>,
    out: &mut [u8],
) -> Result<u64, Refusal>
    requires { has_checked (asked_by request.now).flags ≡ true → font_fault file.now ≡ None }
    ensures { MatchResult result (IsCutInRoom kind file.now (asked_by request.now) out.old out.new)
        (λ refusal. (out.new ≡ out.old)
        × RefusesSubset kind file.now (asked_by request.now) (length out.old) refusal) }
{
    let font = opened_for_request(file, request)?;
    write_cut(alloc, kind, &font, request, out)
}
