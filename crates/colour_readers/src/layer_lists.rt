//! The layers of glyphs. OpenType 1.9, COLR, Header; BaseGlyph and Layer records.
ghost use Rattle.std.specs.Prelude.{IsFalse, IsTrue, ◌≡◌, ◌∷◌, ◌+◌, ◌<◌, drop, length, nat_le, nat_lt, not, nat_eq, ◌&&◌, ◌||◌, true};
ghost use Rattle.std.specs.List.{list_all};
ghost use Rattle.colour_tables.specs.LayerLists.{are_bases, base_count, bases_of, has_layer_lists, has_records, layer_count, layers_at, layers_have_room, layers_of};
ghost use Rattle.colour_tables.specs.LayerLists.{is_layer_table};
ghost use Rattle.colour_readers.specs.Rooms.{is_base, layers_left, MAX_ROOM};

use crate::fields::{u16_at, u32_at};
use colour_tables::{Base, Layer};

/// How many bytes a table of version 0 has before its lists.
const HEADER: usize = 14;

/// How many bytes a BaseGlyph record has.
const BASE: usize = 6;

/// How many bytes a Layer record has.
const LAYER: usize = 4;

/// How many layers a table has at most.
const LAYERS: u16 = 65535;

/// Returns numBaseGlyphRecords.
#[tactic(auto, unfolding(colour_tables::specs::LayerLists::base_count))]
pub(crate) fn count_bases(t: &[u8]) -> u16
    ensures { result ≡ base_count t.now }
{
    u16_at(t, 2)
}

// Returns numLayerRecords.
#[tactic(auto, unfolding(colour_tables::specs::LayerLists::layer_count))]
fn count_layers(t: &[u8]) -> u16
    ensures { result ≡ layer_count t.now }
{
    u16_at(t, 12)
}

/// Returns a base glyph.
pub(crate) fn base_at(t: &[u8], i: u16) -> Base
    requires { i < base_count t.now }
    ensures { drop i (bases_of t.now) ≡ result ∷ drop (i + 1) (bases_of t.now) }
{
    let at = u32_at(t, 4) as usize + BASE * usize::from(i);
    let glyph = u16_at(t, at);
    let first = u16_at(t, at + 2);
    let count = u16_at(t, at + 4);
    Base {
        glyph,
        first,
        count,
    }
}

// Returns whether so many records of a size lie within a table from an offset on.
fn has_records(t: &[u8], offset: u32, count: u16, size: usize) -> bool
    requires { size < 8 }
    ensures { result ≡ has_records t.now offset count size }
{
    count == 0 || offset != 0 && offset as usize + size * usize::from(count) <= t.len()
}

// Returns whether a base glyph is not below one and below another, and has its layers among so many.
fn is_base(base: Base, from: u32, layers: u16, n: u16) -> bool
    ensures { result ≡ is_base n layers from base }
{
    from <= u32::from(base.glyph)
        && base.glyph < n
        && u32::from(base.first) + u32::from(base.count) <= u32::from(layers)
}

// Returns whether base glyphs are in order.
fn are_bases(t: &[u8], n: u16) -> bool
    ensures { result ≡ are_bases n (layer_count t.now) 0 (bases_of t.now) }
{
    let layers = count_layers(t);
    let count = count_bases(t);
    let mut from = 0;
    for i in 0..count {
        let base = base_at(t, i);
        if !is_base(base, from, layers, n) {
            return false;
        }
        from = u32::from(base.glyph) + 1;
    }
    true
}

/// Returns whether the lists of a table lie within it, and its base glyphs are in order.
#[tactic(auto, unfolding(colour_tables::specs::LayerLists::has_layer_lists, colour_tables::specs::LayerLists::bases_offset, colour_tables::specs::LayerLists::layers_offset))]
pub(crate) fn has_layer_lists(t: &[u8], n: u16) -> bool
    ensures { result ≡ has_layer_lists n t.now }
{
    has_records(t, u32_at(t, 4), count_bases(t), BASE)
        && has_records(t, u32_at(t, 8), count_layers(t), LAYER)
        && are_bases(t, n)
}

// Returns whether the layers of a base glyph are of glyphs.
fn are_layers(t: &[u8], base: Base, n: u16) -> bool
    ensures { result ≡ list_all (λ layer. nat_lt layer.glyph n) (layers_of t.now base) }
{
    let at = u32_at(t, 8) as usize + LAYER * usize::from(base.first);
    for j in 0..base.count {
        if n <= u16_at(t, at + LAYER * usize::from(j)) {
            return false;
        }
    }
    true
}

/// Returns a layer of a base glyph.
pub(crate) fn layer_at(t: &[u8], base: Base, j: u16) -> Layer
    requires { j < base.count }
    ensures { drop j (layers_of t.now base) ≡ result ∷ drop (j + 1) (layers_of t.now base) }
{
    let at = u32_at(t, 8) as usize + LAYER * usize::from(base.first) + LAYER * usize::from(j);
    let glyph = u16_at(t, at);
    let palette_entry = u16_at(t, at + 2);
    Layer {
        glyph,
        palette_entry,
    }
}

/// Returns whether two base glyphs of two tables have the same layers.
pub(crate) fn has_same_layers(t: &[u8], base: Base, u: &[u8], other: Base) -> bool
    ensures same { IsTrue result → layers_of t.now base ≡ layers_of u.now other }
    ensures other { IsFalse result → layers_of t.now base ≡ layers_of u.now other → ⊥ }
{
    let count = base.count;
    if count != other.count {
        return false;
    }
    for j in 0..count {
        let layer = layer_at(t, base, j);
        let second = layer_at(u, other, j);
        if layer != second {
            return false;
        }
    }
    true
}

/// Returns how many layers a table may have beside those of its base glyphs, none where there is no room for these or
/// they are not of glyphs.
pub(crate) fn layers_left(t: &[u8], n: u16) -> Option<u16>
    ensures { result ≡ layers_left n t.now MAX_ROOM (bases_of t.now) }
{
    let mut left = LAYERS;
    let count = count_bases(t);
    for i in 0..count {
        let base = base_at(t, i);
        if !are_layers(t, base, n) {
            return None;
        }
        left = left.checked_sub(base.count)?;
    }
    Some(left)
}

/// Returns whether the layers of glyphs are of glyphs, and have room in a table.
#[tactic(auto, using(crate::proofs::LayerListLemmas::layers_room))]
pub(crate) fn layers_have_room(t: &[u8], n: u16) -> bool
    requires { has_layer_lists n t.now ≡ true }
    ensures { result ≡ layers_have_room n (layers_at t.now) }
{
    layers_left(t, n).is_some()
}

/// Returns whether a table is of version 0, and divided.
#[tactic(auto, unfolding(colour_tables::specs::LayerLists::is_layer_table))]
pub fn is_layer_table(t: &[u8], n: u16) -> bool
    ensures { result ≡ is_layer_table n t.now }
{
    HEADER <= t.len() && u16_at(t, 0) == 0 && has_layer_lists(t, n) && layers_have_room(t, n)
}
