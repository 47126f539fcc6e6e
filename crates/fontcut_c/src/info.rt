//! The numbers of a whole font. OpenType 1.9, `head`, `hhea` and `maxp`.
ghost use Rattle.std.specs.Prelude.{◌≡◌, ◌+◌, ◌<◌, ◌≤◌, None, length};
ghost use Rattle.sfnt_bytes.specs.Directory.{kept_tag};
ghost use Rattle.sfnt_bytes.specs.declared.tag.TheConstants.{SLOTS};
ghost use Rattle.font_tables.specs.Fields.{i16_at};
ghost use Rattle.font_tables.specs.Refusals.{table_fault};
ghost use Rattle.font_tables.specs.Tables.{head_of, hhea_of, table_or_empty};
ghost use Rattle.fontcut_c.specs.Info.{info_of};

use font_file::Font;
use sfnt_bytes::{HEAD, HHEA, be16};

/// The numbers of a whole font. All but the number of glyphs are as the font has them, and nothing of them is checked.
#[repr(C)]
#[derive(Clone, Copy, Debug, PartialEq, Eq)]
pub struct Info {
    /// The number of glyphs: 1 at least.
    pub glyph_count: u16,
    /// How many font units an em has. The numbers below are in font units.
    pub units_per_em: u16,
    /// The left side of the box that holds all outlines.
    pub x_min: i16,
    /// The lower side of that box.
    pub y_min: i16,
    /// The right side of that box.
    pub x_max: i16,
    /// The upper side of that box.
    pub y_max: i16,
    /// How far a line goes above its baseline.
    pub ascender: i16,
    /// How far a line goes below its baseline, as a number below 0 in most fonts.
    pub descender: i16,
}

// Returns the signed number of 16 bits at a place.
#[tactic(auto, unfolding(font_tables::specs::Fields::i16_at))]
fn signed_at(bytes: &[u8], at: usize) -> i16
    requires { at + 2 ≤ length bytes.now }
    ensures { result ≡ i16_at bytes.now at }
{
    be16(bytes, at).cast_signed()
}

// Returns the table of a slot, empty where it is missing.
#[tactic(auto, unfolding(font_tables::specs::Tables::table_or_empty))]
fn table<'a>(font: &Font<'a>, slot: usize) -> &'a [u8]
    requires { slot < SLOTS }
    ensures table { result.now ≡ table_or_empty font.now (kept_tag slot) }

    // Keeps the fact that `Font::open` proved.
    ensures sound { table_fault font.now ≡ None }
{
    font.tables().directory().table(slot).unwrap_or(&[])
}

// Returns the bytes of `head`.
#[tactic(auto, using(crate::proofs::InfoLemmas::head_is, crate::proofs::InfoLemmas::head_has))]
fn head<'a>(font: &Font<'a>) -> &'a [u8]
    ensures table { result.now ≡ head_of font.now }
    ensures long { 54 ≤ length result.now }
{
    table(font, HEAD)
}

// Returns the bytes of `hhea`.
#[tactic(auto, using(crate::proofs::InfoLemmas::hhea_is, crate::proofs::InfoLemmas::hhea_has))]
fn hhea<'a>(font: &Font<'a>) -> &'a [u8]
    ensures table { result.now ≡ hhea_of font.now }
    ensures long { 36 ≤ length result.now }
{
    table(font, HHEA)
}

/// Returns the numbers of a font.
pub(crate) fn info_in(font: &Font<'_>) -> Info
    ensures { result ≡ info_of font.now }
{
    let (head, hhea) = (head(font), hhea(font));
    Info {
        glyph_count: font.tables().glyph_count(),
        units_per_em: font.tables().units_per_em(),
        x_min: signed_at(head, 36),
        y_min: signed_at(head, 38),
        x_max: signed_at(head, 40),
        y_max: signed_at(head, 42),
        ascender: signed_at(hhea, 4),
        descender: signed_at(hhea, 6),
    }
}
