//! What is written of each glyph, as one of two tables says it. This project's own.
ghost use Rattle.std.specs.Prelude.{◌≡◌, ◌<◌, ℕ};
ghost use Rattle.colour_writers.specs.Picked.{picked_layers};

use crate::sides::{Side, Sides};
use colour_readers::{GlyphLayers, LayerTable, PaintTable, TableTree};

/// What says of each glyph which layers it has.
pub(crate) trait Layered {
    ghost use Rattle.std.specs.Prelude.{◌≡◌, ℕ, List, Option};
    ghost use Rattle.colour_tables.specs.declared.layer.Layer.{Layer};

    /// The layers of each glyph.
    ghost said: { Self → ℕ → Option (List Layer) };

    /// Returns the layers of a glyph.
    fn layers(&self, g: u16) -> Option<GlyphLayers<'_>>
        ensures { result ≡ said self.now g };
}

/// The layers of two tables of version 0.
#[derive(Drop)]
pub(crate) struct PickedLayers<'a, 't, S: Sides> {
    pub(crate) one: &'a LayerTable<'t>,
    pub(crate) other: &'a LayerTable<'t>,
    pub(crate) sides: &'a S,
}

impl<'a, 't, S: Sides> Layered for PickedLayers<'a, 't, S> {
    ghost use Rattle.colour_writers.specs.Picked.{picked_layers};

    ghost said = { λ p. picked_layers (S.side p.sides.now) p.one.now.0 p.other.now.0 };

    fn layers(&self, g: u16) -> Option<GlyphLayers<'_>> {
        match self.sides.side(g) {
            Side::First => self.one.layers(g),
            Side::Second => self.other.layers(g),
            Side::Neither => None,
        }
    }
}

/// What says of each glyph which tree it has: its paint, or its clip box.
pub(crate) trait Planted {
    ghost use Rattle.std.specs.Prelude.{◌≡◌, ℕ, Option};
    ghost use Rattle.std.specs.Option.{option_map};
    ghost use Rattle.colour_tables.specs.Paints.{Tree};
    ghost use Rattle.colour_readers.specs.Subtrees.{tree_of};

    /// The tree of each glyph.
    ghost trees: { Self → ℕ → Option Tree };

    /// Returns the tree of a glyph.
    fn tree(&self, g: u16) -> Option<TableTree<'_>>
        ensures { option_map tree_of result ≡ trees self.now g };
}

/// What says of each glyph which layers, paint and clip box it has.
pub(crate) trait Coloured {
    ghost use Rattle.std.specs.Prelude.{◌≡◌, ℕ};
    ghost use Rattle.std.specs.Option.{option_map};
    ghost use Rattle.colour_tables.specs.PaintLists.{Colour};
    ghost use Rattle.colour_readers.specs.Subtrees.{tree_of};

    /// What is said of each glyph.
    ghost colours: { Self → ℕ → Colour };

    /// Returns the layers of a glyph.
    fn layers(&self, g: u16) -> Option<GlyphLayers<'_>>
        ensures { result ≡ (colours self.now g).layers };

    /// Returns the paint of a glyph.
    fn paint(&self, g: u16) -> Option<TableTree<'_>>
        ensures { option_map tree_of result ≡ (colours self.now g).paint };

    /// Returns the clip box of a glyph.
    fn clip_box(&self, g: u16) -> Option<TableTree<'_>>
        ensures { option_map tree_of result ≡ (colours self.now g).box };
}

/// What two tables of version 1 say.
#[derive(Drop)]
pub(crate) struct PickedColours<'a, 't, S: Sides> {
    pub(crate) one: &'a PaintTable<'t>,
    pub(crate) other: &'a PaintTable<'t>,
    pub(crate) sides: &'a S,
}

impl<'a, 't, S: Sides> Coloured for PickedColours<'a, 't, S> {
    ghost use Rattle.colour_tables.specs.PaintLists.{colour_at, no_colour};
    ghost use Rattle.colour_writers.specs.Picked.{by_side};

    ghost colours = { λ p g. by_side (S.side p.sides.now g) (colour_at p.one.now.1 p.one.now.0 g)
        (colour_at p.other.now.1 p.other.now.0 g) no_colour };

    fn layers(&self, g: u16) -> Option<GlyphLayers<'_>> {
        match self.sides.side(g) {
            Side::First => self.one.layers(g),
            Side::Second => self.other.layers(g),
            Side::Neither => None,
        }
    }

    fn paint(&self, g: u16) -> Option<TableTree<'_>> {
        match self.sides.side(g) {
            Side::First => self.one.paint(g),
            Side::Second => self.other.paint(g),
            Side::Neither => None,
        }
    }

    fn clip_box(&self, g: u16) -> Option<TableTree<'_>> {
        match self.sides.side(g) {
            Side::First => self.one.clip_box(g),
            Side::Second => self.other.clip_box(g),
            Side::Neither => None,
        }
    }
}

/// The layers alone.
#[derive(Drop)]
pub(crate) struct LayersOf<'p, C: Coloured> {
    pub(crate) colours: &'p C,
}

impl<'p, C: Coloured> Layered for LayersOf<'p, C> {
    ghost said = { λ p g. (C.colours p.colours.now g).layers };

    fn layers(&self, g: u16) -> Option<GlyphLayers<'_>> {
        self.colours.layers(g)
    }
}

/// The paints alone.
#[derive(Drop)]
pub(crate) struct PaintsOf<'p, C: Coloured> {
    pub(crate) colours: &'p C,
}

impl<'p, C: Coloured> Planted for PaintsOf<'p, C> {
    ghost trees = { λ p g. (C.colours p.colours.now g).paint };

    fn tree(&self, g: u16) -> Option<TableTree<'_>> {
        self.colours.paint(g)
    }
}

/// The clip boxes alone.
#[derive(Drop)]
pub(crate) struct BoxesOf<'p, C: Coloured> {
    pub(crate) colours: &'p C,
}

impl<'p, C: Coloured> Planted for BoxesOf<'p, C> {
    ghost trees = { λ p g. (C.colours p.colours.now g).box };

    fn tree(&self, g: u16) -> Option<TableTree<'_>> {
        self.colours.clip_box(g)
    }
}
