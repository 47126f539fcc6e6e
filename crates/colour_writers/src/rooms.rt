//! Whether what is written has room. OpenType 1.9, COLR: an Offset24 leads to any of its paints.
ghost use Rattle.std.specs.Prelude.{◌≡◌, ◌+◌, ◌*◌, ◌<◌, MatchOption};
ghost use Rattle.std.specs.Option.{option_map};
ghost use Rattle.colour_tables.specs.LayerLists.{depth};
ghost use Rattle.colour_tables.specs.PaintLists.{colour_size, colours_have_room};
ghost use Rattle.colour_readers.specs.Subtrees.{tree_of};
ghost use Rattle.colour_writers.specs.Inside.{size_here};

use crate::layers::layers_have_room;
use crate::picked::{Coloured, LayersOf};
use colour_readers::{GlyphLayers, TableTree};

/// How many bytes what is said of all glyphs has at most.
const BYTES: u64 = 16_777_215;

/// How many bytes a Layer record has.
const LAYER: u64 = 4;

// Returns how many bytes are left of so many after those of layers, none where there are too few.
fn layers_left(layers: Option<GlyphLayers<'_>>, room: u64) -> Option<u64>
    ensures { MatchOption result (room < 4 * depth layers.entry)
        (λ left. left + 4 * depth layers.entry ≡ room) }
{
    match layers {
        Some(layers) => room.checked_sub(LAYER * u64::from(layers.count())),
        None => Some(room),
    }
}

// Returns how many bytes are left of so many after those of a tree, none where there are too few.
fn tree_left(tree: Option<TableTree<'_>>, room: u64) -> Option<u64>
    ensures { MatchOption result (room < size_here (option_map tree_of tree.entry))
        (λ left. left + size_here (option_map tree_of tree.entry) ≡ room) }
{
    match tree {
        Some(tree) => tree.room_after(room),
        None => Some(room),
    }
}

// Returns how many bytes are left of so many after those of a glyph, none where there are too few.
fn colour_left<C: Coloured>(colours: &C, g: u16, room: u64) -> Option<u64>
    ensures { MatchOption result (room < colour_size (C.colours colours.now g))
        (λ left. left + colour_size (C.colours colours.now g) ≡ room) }
{
    let beside_layers = layers_left(colours.layers(g), room)?;
    let beside_paint = tree_left(colours.paint(g), beside_layers)?;
    tree_left(colours.clip_box(g), beside_paint)
}

/// Returns whether what is said of glyphs has room in a table.
pub(crate) fn colours_have_room<C: Coloured>(colours: &C, n: u16) -> bool
    ensures { result ≡ colours_have_room n (C.colours colours.now) }
{
    if !layers_have_room(&LayersOf { colours }, n) {
        return false;
    }
    let mut left = BYTES;
    for g in 0..n {
        match colour_left(colours, g, left) {
            Some(less) => left = less,
            None => return false,
        }
    }
    true
}
