//! What a subtable says of a selector and a code. OpenType 1.9, cmap, Format 14: Unicode variation sequences.
ghost use Rattle.std.specs.Prelude.{◌≡◌};
ghost use Rattle.variation_sequences.specs.Pairs.{pair_of};
ghost use Rattle.variation_sequences.specs.Sequences.{variant_glyph};

/// What is drawn for a code with a selector after it.
#[derive(Clone, Copy, Debug, PartialEq, Eq)]
pub enum Variant {
    /// The glyph of the code in the map of the font, as a default table says.
    Unchanged,
    /// A glyph of its own, as a non-default table says.
    Glyph(u16),
}

/// What a subtable says of one selector and one code.
#[derive(Clone, Copy, Debug, PartialEq, Eq)]
pub struct Entry {
    /// varSelector
    pub selector: u32,
    /// The code that the selector stands after.
    pub code: u32,
    /// What is drawn for both.
    pub variant: Variant,
}

/// One selector and one code with the glyph that is drawn for both.
#[derive(Clone, Copy, Debug, PartialEq, Eq)]
pub struct Pair {
    /// varSelector
    pub selector: u32,
    /// The code that the selector stands after.
    pub code: u32,
    /// The glyph.
    pub glyph: u16,
}

/// Returns the glyph of what a subtable says among so many glyphs, 0 where there is none. `of_code` is the glyph of the
/// code in the map of the font.
pub fn variant_glyph(found: Option<Variant>, of_code: u16, glyphs: u16) -> u16
    ensures { result ≡ variant_glyph glyphs of_code found }
{
    match found {
        None => 0,
        Some(Variant::Unchanged) => of_code,
        Some(Variant::Glyph(glyph)) => { if glyph < glyphs { glyph } else { 0 } }
    }
}

/// Returns the pair of what a subtable says, or `None` where it has no glyph among so many. `of_code` is the glyph of
/// the code in the map of the font.
pub fn pair_of(entry: Entry, of_code: u16, glyphs: u16) -> Option<Pair>
    ensures { result ≡ pair_of glyphs of_code entry }
{
    let glyph = variant_glyph(Some(entry.variant), of_code, glyphs);
    if glyph == 0 {
        return None;
    }
    Some(Pair {
        selector: entry.selector,
        code: entry.code,
        glyph,
    })
}
