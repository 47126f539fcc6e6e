//! The layers of a glyph, as a table has them. OpenType 1.9, COLR, BaseGlyph and Layer records.
ghost use Rattle.std.specs.Prelude.{◌≡◌, ◌∷◌, ◌+◌, ◌<◌, drop, length};
ghost use Rattle.colour_tables.specs.LayerLists.{layers_of};

use crate::layer_lists::layer_at;
use colour_tables::{Base, Layer};
use std::marker::Model;

/// The layers of a glyph.
#[derive(Drop)]
pub struct GlyphLayers<'t> {
    bytes: &'t [u8],
    base: Base,
}

// Their value is the list of them.
impl<'t> Model for GlyphLayers<'t> {
    ghost use Rattle.std.specs.Prelude.{List};
    ghost use Rattle.colour_tables.specs.LayerLists.{layers_of};
    ghost use Rattle.colour_tables.specs.declared.layer.Layer.{Layer};

    ghost Value = { List Layer };

    ghost view = { λ l. layers_of l.bytes.now l.base };
}

impl<'t> GlyphLayers<'t> {
    /// Returns the layers of a base glyph.
    pub(crate) fn of(bytes: &'t [u8], base: Base) -> GlyphLayers<'t>
        ensures { result ≡ layers_of bytes.now base }
    {
        GlyphLayers { bytes, base }
    }

    /// Returns how many there are.
    #[tactic(auto, using(crate::proofs::LayerListLemmas::layers_long))]
    pub fn count(&self) -> u16
        ensures { result ≡ length self.now }
    {
        self.base.count
    }

    /// Returns one of them.
    #[tactic(auto, using(crate::proofs::LayerListLemmas::layers_long))]
    pub fn at(&self, j: u16) -> Layer
        requires { j < length self.now }
        ensures { drop j self.now ≡ result ∷ drop (j + 1) self.now }
    {
        layer_at(self.bytes, self.base, j)
    }
}
