//! The glyphs to which a font maps codes, written to the caller's room. OpenType 1.9, cmap: Character to Glyph Index
//! Mapping Table.
ghost use Rattle.std.specs.Prelude.{◌≡◌, ◌≤◌, ◌++◌, MatchResult, None, drop, length, true};
ghost use Rattle.font_file.specs.Font.{font_fault, map_of};
ghost use Rattle.fontcut_c.specs.Glyphs.{AreGlyphsInRoom, RefusesGlyphs, glyphs_of_codes};
ghost use Rattle.fontcut_c.specs.Inside.{IsChartOf};
ghost use Rattle.fontcut_c.specs.Requests.{has_checked};

use crate::cutting::opened;
use crate::refusal::Refusal;
use font_file::Font;
use font_map::Chart;
use std::alloc::Global;

// For fewer codes than these a chart takes longer to make than looking each code up in a subtable out of order.
const MANY_CODES: usize = 64;

// Returns a chart of a font's mapping for this many codes, if there is memory for one.
fn chart_for<'a>(alloc: Global, font: &'a Font<'_>, count: usize) -> Option<Chart<'a>>
    ensures { IsChartOf font.now result }
{
    if count < MANY_CODES {
        return None;
    }
    Chart::of(alloc, font.mapping()).ok()
}

// Returns the glyph of a code, by the chart if there is one.
fn glyph_by(font: &Font<'_>, chart: &Option<Chart<'_>>, code: u32) -> u16
    requires { IsChartOf font.now chart.now }
    ensures { result ≡ map_of font.now code }
{
    match chart {
        Some(chart) => chart.glyph(code),
        None => font.glyph(code),
    }
}

// Writes the glyph of each code to the front of room that has a place for each.
#[tactic(auto, using(crate::proofs::RowLemmas::row_more, crate::proofs::RowLemmas::row_all))]
fn put_glyphs(font: &Font<'_>, chart: &Option<Chart<'_>>, codes: &[u32], out: &mut [u16])
    requires same { IsChartOf font.now chart.now }
    requires room { length codes.now ≤ length out.old }
    ensures { out.new ≡ glyphs_of_codes font.now codes.now ++ drop (length codes.now) out.old }
{
    for index in 0..codes.len() {
        out[index] = glyph_by(font, chart, codes[index]);
    }
}

// Writes the glyph of each code to the front of room, and returns how many they are.
fn glyphs_in(alloc: Global, font: &Font<'_>, codes: &[u32], out: &mut [u16]) -> Result<u64, Refusal>
    requires { font_fault font.now ≡ None }
    ensures { MatchResult result (AreGlyphsInRoom font.now codes.now out.old out.new)
        (λ refusal. (out.new ≡ out.old) × RefusesGlyphs font.now codes.now (length out.old) refusal) }
{
    if out.len() < codes.len() {
        return Err(Refusal::SmallRoom(codes.len() as u64));
    }
    let chart = chart_for(alloc, font, codes.len());
    put_glyphs(font, &chart, codes, out);
    Ok(codes.len() as u64)
}

/// Writes the glyph of each code to the front of room, 0 where the font maps it to none, and returns how many
/// they are. Where the subtable is out of order and the codes are many, it asks for memory for a list of all glyphs, and
/// looks each code up by itself if there is none. The font is not tested where a sum of flags says that it was accepted.
pub(crate) fn glyphs_to(
    alloc: Global,
    flags: u32,
    file: &[u8],
    codes: &[u32],
    out: &mut [u16],
) -> Result<u64, Refusal>
    requires { has_checked flags ≡ true → font_fault file.now ≡ None }
    ensures { MatchResult result (AreGlyphsInRoom file.now codes.now out.old out.new)
        (λ refusal. (out.new ≡ out.old) × RefusesGlyphs file.now codes.now (length out.old) refusal) }
{
    glyphs_in(alloc, &opened(flags, file)?, codes, out)
}
