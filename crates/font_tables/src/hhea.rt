//! The horizontal header. OpenType 1.9, `hhea`.
ghost use Rattle.std.specs.Prelude.{◌≡◌, ◌≤◌, length};
ghost use Rattle.font_tables.specs.Fields.{number_of_h_metrics};
ghost use Rattle.font_tables.specs.Refusals.{is_bad_hhea};

use sfnt_bytes::be16;

/// How many bytes the table has, or more.
const LENGTH: usize = 36;

/// Returns `numberOfHMetrics`.
#[tactic(auto, unfolding(crate::specs::Fields::number_of_h_metrics))]
pub fn read_number_of_h_metrics(hhea: &[u8]) -> u16
    requires { 36 ≤ length hhea.now }
    ensures { result ≡ number_of_h_metrics hhea.now }
{
    be16(hhea, 34)
}

/// Returns whether the table is refused, in a font of this number of glyphs.
pub fn has_bad_hhea(hhea: &[u8], glyphs: u16) -> bool
    ensures { result ≡ is_bad_hhea hhea.now glyphs }
{
    hhea.len() < LENGTH
        || read_number_of_h_metrics(hhea) == 0
        || read_number_of_h_metrics(hhea) > glyphs
}
