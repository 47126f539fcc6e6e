//! The glyphs of the variation sequences of a text, written to the caller's room. OpenType 1.9, cmap, Format 14: Unicode
//! variation sequences.
ghost use Rattle.std.specs.Prelude.{◌≡◌, MatchResult, None, length, true};
ghost use Rattle.font_file.specs.Font.{font_fault};
ghost use Rattle.fontcut_c.specs.Requests.{has_checked};
ghost use Rattle.fontcut_c.specs.Variants.{AreVariantsInRoom, RefusesVariants};

use crate::cutting::opened;
use crate::glyph_sets::numbers_to;
use crate::refusal::Refusal;
use font_coverage::variants;
use font_file::Font;
use std::alloc::Global;

// Writes the glyphs of the sequences of a text in an accepted font to the front of room, and returns how many they are.
fn write_variants(
    alloc: Global,
    font: &Font<'_>,
    text: &[u8],
    out: &mut [u16],
) -> Result<u64, Refusal>
    requires { font_fault font.now ≡ None }
    ensures { MatchResult result (AreVariantsInRoom font.now text.now out.old out.new)
        (λ refusal. (out.new ≡ out.old) × RefusesVariants font.now text.now (length out.old) refusal) }
{
    let text = match str::from_utf8(text) {
        Ok(text) => text,
        Err(error) => return Err(Refusal::BadText(error.valid_up_to())),
    };
    let glyphs = variants(alloc, font, text)?;
    numbers_to(&glyphs, out)
}

/// Writes the glyphs of the variation sequences of a text in a font to the front of room, ascending, and returns how many
/// they are. The font is not tested where a sum of flags says that it was accepted.
pub(crate) fn variants_to(
    alloc: Global,
    flags: u32,
    file: &[u8],
    text: &[u8],
    out: &mut [u16],
) -> Result<u64, Refusal>
    requires { has_checked flags ≡ true → font_fault file.now ≡ None }
    ensures { MatchResult result (AreVariantsInRoom file.now text.now out.old out.new)
        (λ refusal. (out.new ≡ out.old) × RefusesVariants file.now text.now (length out.old) refusal) }
{
    write_variants(alloc, &opened(flags, file)?, text, out)
}
