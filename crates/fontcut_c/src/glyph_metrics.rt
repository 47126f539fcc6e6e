//! The metrics of glyphs, written to the caller's room. OpenType 1.9, `hmtx`.
ghost use Rattle.std.specs.Prelude.{◌≡◌, ◌<◌, ◌≤◌, ◌++◌, MatchOption, MatchResult, None, drop, length, true};
ghost use Rattle.font_file.specs.Font.{font_fault};
ghost use Rattle.font_tables.specs.Fields.{glyph_count_of};
ghost use Rattle.fontcut_c.specs.Glyphs.{AreGlyphs, AreMetricsInRoom, IsFirstNoGlyph, RefusesMetrics, written_metric, metrics_of};
ghost use Rattle.fontcut_c.specs.Requests.{has_checked};

use crate::cutting::opened;
use crate::refusal::Refusal;
use font_file::Font;

/// The metrics of a glyph, in font units.
#[repr(C)]
#[derive(Clone, Copy, Debug, PartialEq, Eq)]
pub struct Metric {
    /// The advance width.
    pub advance: u16,
    /// The left side bearing.
    pub bearing: i16,
}

/// Finds the first number that is no glyph of the font.
pub(crate) fn first_no_glyph(font: &Font<'_>, glyphs: &[u16]) -> Option<usize>
    ensures { MatchOption result (AreGlyphs font.now glyphs.now) (IsFirstNoGlyph font.now glyphs.now) }
{
    let count = font.tables().glyph_count();
    for index in 0..glyphs.len() {
        if count <= glyphs[index] {
            return Some(index);
        }
    }
    None
}

// Returns the metrics of a glyph.
fn metric_of_glyph(font: &Font<'_>, glyph: u16) -> Metric
    requires { glyph < glyph_count_of font.now }
    ensures { result ≡ written_metric font.now glyph }
{
    let (advance, bearing) = font.metric(glyph);
    Metric { advance, bearing }
}

// Writes the metrics of each glyph to the front of room that has a place for each.
#[tactic(auto, using(crate::proofs::RowLemmas::row_more, crate::proofs::RowLemmas::row_all))]
fn put_metrics(font: &Font<'_>, glyphs: &[u16], out: &mut [Metric])
    requires known { AreGlyphs font.now glyphs.now }
    requires room { length glyphs.now ≤ length out.old }
    ensures { out.new ≡ metrics_of font.now glyphs.now ++ drop (length glyphs.now) out.old }
{
    for index in 0..glyphs.len() {
        out[index] = metric_of_glyph(font, glyphs[index]);
    }
}

// Writes the metrics of each glyph to the front of room, and returns how many they are.
fn metrics_in(font: &Font<'_>, glyphs: &[u16], out: &mut [Metric]) -> Result<u64, Refusal>
    requires { font_fault font.now ≡ None }
    ensures { MatchResult result (AreMetricsInRoom font.now glyphs.now out.old out.new)
        (λ refusal. (out.new ≡ out.old) × RefusesMetrics font.now glyphs.now (length out.old) refusal) }
{
    if let Some(index) = first_no_glyph(font, glyphs) {
        return Err(Refusal::NoGlyph(index));
    }
    if out.len() < glyphs.len() {
        return Err(Refusal::SmallRoom(glyphs.len() as u64));
    }
    put_metrics(font, glyphs, out);
    Ok(glyphs.len() as u64)
}

/// Writes the metrics of each glyph to the front of room, and returns how many they are. It asks for no memory. The font is
/// not tested where a sum of flags says that it was accepted.
pub(crate) fn metrics_to(
    flags: u32,
    file: &[u8],
    glyphs: &[u16],
    out: &mut [Metric],
) -> Result<u64, Refusal>
    requires { has_checked flags ≡ true → font_fault file.now ≡ None }
    ensures { MatchResult result (AreMetricsInRoom file.now glyphs.now out.old out.new)
        (λ refusal. (out.new ≡ out.old) × RefusesMetrics file.now glyphs.now (length out.old) refusal) }
{
    metrics_in(&opened(flags, file)?, glyphs, out)
}
