//! The horizontal metrics. OpenType 1.9, `hmtx`.
ghost use Rattle.std.specs.Prelude.{◌≡◌, ◌+◌, ◌*◌, ◌≤◌, length};
ghost use Rattle.font_tables.specs.Fields.{i16_at};
ghost use Rattle.font_tables.specs.Metrics.{advance_width, left_side_bearing, lsb, metric_in};
ghost use Rattle.font_tables.specs.Inside.{HasMetric};
ghost use Rattle.font_tables.specs.Refusals.{is_bad_hmtx};

use sfnt_bytes::be16;

/// How many bytes a pair of `advanceWidth` and `lsb` has.
const PAIR: usize = 4;

/// How many bytes a bearing after the pairs has.
const BEARING: usize = 2;

#[tactic(auto, unfolding(crate::specs::Fields::i16_at))]
fn read_i16(b: &[u8], at: usize) -> i16
    requires { at + 2 ≤ length b.now }
    ensures { result ≡ i16_at b.now at }
{
    be16(b, at).cast_signed()
}

#[tactic(auto, unfolding(crate::specs::Metrics::advance_width))]
fn read_advance_width(hmtx: &[u8], i: usize) -> u16
    requires { 4 * (i + 1) ≤ length hmtx.now }
    ensures { result ≡ advance_width hmtx.now i }
{
    be16(hmtx, PAIR * i)
}

#[tactic(auto, unfolding(crate::specs::Metrics::lsb))]
fn read_lsb(hmtx: &[u8], i: usize) -> i16
    requires { 4 * (i + 1) ≤ length hmtx.now }
    ensures { result ≡ lsb hmtx.now i }
{
    read_i16(hmtx, PAIR * i + 2)
}

#[tactic(auto, unfolding(crate::specs::Metrics::left_side_bearing))]
fn read_left_side_bearing(hmtx: &[u8], pairs: usize, i: usize) -> i16
    requires { 4 * pairs + 2 * i + 2 ≤ length hmtx.now }
    ensures { result ≡ left_side_bearing hmtx.now pairs i }
{
    read_i16(hmtx, PAIR * pairs + BEARING * i)
}

/// Returns the advance width and the left side bearing of a glyph, in font units, where there are so
/// many pairs.
#[tactic(auto, unfolding(crate::specs::Metrics::metric_in))]
pub(crate) fn read_metric(hmtx: &[u8], pairs: usize, g: usize) -> (u16, i16)
    requires { HasMetric hmtx.now pairs g }
    ensures { result ≡ metric_in hmtx.now pairs g }
{
    if g < pairs {
        (read_advance_width(hmtx, g), read_lsb(hmtx, g))
    } else {
        (
            read_advance_width(hmtx, pairs - 1),
            read_left_side_bearing(hmtx, pairs, g - pairs),
        )
    }
}

/// Returns whether the table is refused, in a font with this number of pairs and this number of glyphs.
pub fn has_bad_hmtx(hmtx: &[u8], pairs: u16, glyphs: u16) -> bool
    requires { pairs ≤ glyphs }
    ensures { result ≡ is_bad_hmtx hmtx.now pairs glyphs }
{
    hmtx.len() < PAIR * pairs as usize + BEARING * (glyphs - pairs) as usize
}
