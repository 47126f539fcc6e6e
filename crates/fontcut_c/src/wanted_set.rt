//! What the cut of an opened font is asked for.
ghost use Rattle.std.specs.Prelude.{◌≡◌, Some, IfOk};
ghost use Rattle.std.specs.Option.{option_map};
ghost use Rattle.font_subset.specs.KeptGlyphs.{asked};
ghost use Rattle.fontcut_c.specs.Inside.{cut_of_set, wished_cut};
ghost use Rattle.fontcut_c.specs.Requests.{asked_by};

use crate::requests::Request;
use crate::wanted_ranges::wanted_of;
use codes::Wanted;
use font_subset::{CutOfKind, FontOfKind, FontToCut, numbers_of};
use sfnt_bytes::NoMemory;
use std::alloc::Global;

/// What the cut of an opened font is asked for: codes, and numbers of glyphs, with what links lead to where the font was
/// opened for cuts that are closed.
#[derive(Drop)]
pub(crate) struct WantedSet {
    codes: Wanted,
    numbers: Option<Vec<u16>>,
}

/// Returns what a request asks of an opened font, none of whose ranges is bad.
pub(crate) fn wanted_set(
    alloc: Global,
    font: &FontToCut<'_, '_>,
    request: &Request<'_>,
) -> Result<WantedSet, NoMemory>
    ensures { IfOk result (λ set. cut_of_set font.now set ≡ wished_cut font.now (asked_by request.now)) }
{
    let codes = wanted_of(alloc, request.wanted_ranges())?;
    let numbers = font.numbers(alloc, Some(&codes), Some(request.wanted_glyphs()))?;
    Ok(WantedSet { codes, numbers })
}

/// Returns what the cut of a font is made of, of the kind that it was opened for.
pub(crate) fn source_of<'f, 'a>(
    alloc: Global,
    font: &'f FontOfKind<'f, 'a>,
    set: &'f WantedSet,
) -> Result<CutOfKind<'f, 'a>, NoMemory>
    ensures { IfOk result (λ source. source ≡ (
      font.entry.now.0,
      (font.entry.now.1, asked (Some set.entry.now.codes) (option_map (λ v. v.items) set.entry.now.numbers)),
    )) }
{
    CutOfKind::new(alloc, font, Some(&set.codes), numbers_of(&set.numbers))
}
