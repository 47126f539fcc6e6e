//! Sets of glyphs, written to the caller's room: closures under the links of `GSUB`, and what a file keeps. OpenType 1.9,
//! GSUB.
ghost use Rattle.std.specs.Prelude.{◌≡◌, MatchResult, None, length, true};
ghost use Rattle.font_file.specs.Font.{font_fault};
ghost use Rattle.fontcut_c.specs.Answers.{IsInRoom};
ghost use Rattle.fontcut_c.specs.Cutting.{AcceptsRequest};
ghost use Rattle.fontcut_c.specs.GlyphSets.{IsClosureInRoom, IsKeptInRoom, RefusesClosure, RefusesKept};
ghost use Rattle.fontcut_c.specs.Inside.{RefusesRoom};
ghost use Rattle.fontcut_c.specs.Requests.{asked_by, has_checked};

use crate::cutting::opened_for_request;
use crate::refusal::Refusal;
use crate::requests::Request;
use crate::wanted_ranges::wanted_of;
use font_file::Font;
use font_subset::{FontOfKind, FontToCut, kept_glyphs};
use font_theory::Kind;
use std::alloc::Global;

/// Writes numbers to the front of room, and returns how many they are.
pub(crate) fn numbers_to(numbers: &[u16], out: &mut [u16]) -> Result<u64, Refusal>
    ensures { MatchResult result (IsInRoom numbers.now out.old out.new)
        (λ refusal. (out.new ≡ out.old) × RefusesRoom (length numbers.now) (length out.old) refusal) }
{
    if out.len() < numbers.len() {
        return Err(Refusal::SmallRoom(numbers.len() as u64));
    }
    out[..numbers.len()].copy_from_slice(numbers);
    Ok(numbers.len() as u64)
}

// Writes the closure of what is wanted of an opened font to the front of room.
fn write_closure(
    alloc: Global,
    kind: Kind,
    font: &Font<'_>,
    request: &Request<'_>,
    out: &mut [u16],
) -> Result<u64, Refusal>
    requires { AcceptsRequest font.now (asked_by request.now) }
    ensures { MatchResult result (IsClosureInRoom kind font.now (asked_by request.now) out.old out.new)
        (λ refusal. (out.new ≡ out.old)
        × RefusesClosure kind font.now (asked_by request.now) (length out.old) refusal) }
{
    let opened = FontToCut::open(alloc, kind, true, font)?;
    let codes = wanted_of(alloc, request.wanted_ranges())?;
    let glyphs = opened.closure(alloc, Some(&codes), request.wanted_glyphs())?;
    numbers_to(&glyphs, out)
}

/// Writes the closure of what is wanted of a font to the front of room, and returns how many glyphs it has.
pub(crate) fn closure_to(
    alloc: Global,
    kind: Kind,
    file: &[u8],
    request: &Request<'_>,
    out: &mut [u16],
) -> Result<u64, Refusal>
    requires { has_checked (asked_by request.now).flags ≡ true → font_fault file.now ≡ None }
    ensures { MatchResult result (IsClosureInRoom kind file.now (asked_by request.now) out.old out.new)
        (λ refusal. (out.new ≡ out.old)
        × RefusesClosure kind file.now (asked_by request.now) (length out.old) refusal) }
{
    let font = opened_for_request(file, request)?;
    write_closure(alloc, kind, &font, request, out)
}

// Writes what an accepted font keeps of itself as a cut of a kind to the front of room.
fn write_kept(alloc: Global, kind: Kind, font: &Font<'_>, out: &mut [u16]) -> Result<u64, Refusal>
    requires { font_fault font.now ≡ None }
    ensures { MatchResult result (IsKeptInRoom kind font.now out.old out.new)
        (λ refusal. (out.new ≡ out.old) × RefusesKept kind font.now (length out.old) refusal) }
{
    let opened = FontOfKind::open(alloc, kind, font)?;
    let glyphs = kept_glyphs(alloc, &opened)?;
    numbers_to(&glyphs, out)
}

/// Writes what a font keeps of itself as a cut of a kind to the front of room, and returns how many glyphs these are.
#[tactic(auto, using(crate::proofs::CutLemmas::refused_for))]
pub(crate) fn kept_to(
    alloc: Global,
    kind: Kind,
    file: &[u8],
    out: &mut [u16],
) -> Result<u64, Refusal>
    ensures { MatchResult result (IsKeptInRoom kind file.now out.old out.new)
        (λ refusal. (out.new ≡ out.old) × RefusesKept kind file.now (length out.old) refusal) }
{
    let font = Font::open(file)?;
    write_kept(alloc, kind, &font, out)
}
