//! What stands where in a table of version 1 that is written. OpenType 1.9, COLR, Header.
ghost use Rattle.std.specs.Prelude.{◌≡◌, ◌+◌, ◌*◌, ◌<◌, ◌≤◌, ◌^◌, ◌++◌, OnErr, OnOk, length, true};
ghost use Rattle.sfnt_bytes.specs.Memory.{IsRefused};
ghost use Rattle.colour_tables.specs.Laws.{AreRead};
ghost use Rattle.colour_tables.specs.MadePaints.{list_size};
ghost use Rattle.colour_tables.specs.PaintLists.{colours_have_room};
ghost use Rattle.colour_writers.specs.Inside.{ArePlaces};
ghost use Rattle.colour_writers.specs.Plans.{IsPlanOf};

use crate::layers::{LayerCounts, count_layers};
use crate::made_lists::{TreeCounts, count_trees};
use crate::picked::{BoxesOf, Coloured, LayersOf, PaintsOf};
use crate::places::Places;

/// How much there is, and where.
#[derive(Clone, Copy)]
pub(crate) struct Plan {
    pub(crate) layers: LayerCounts,
    pub(crate) paints: TreeCounts,
    pub(crate) boxes: TreeCounts,
    pub(crate) at: Places,
}

// Returns how many bytes a list has with so many bytes before its count.
fn list_size(before: u32, size: u32, count: u32) -> u32
    requires before { before < 2 }
    requires size { size < 8 }
    requires count { count < 2 ^ 24 }
    ensures value { result ≡ list_size before size count }
    ensures small { result ≤ before + 4 + size * count }
{
    if count == 0 {
        return 0;
    }
    before + 4 + size * count
}

// Returns the places of lists.
fn places_of(layers: LayerCounts, paints: TreeCounts, boxes: TreeCounts) -> Places
    requires glyphs { layers.glyphs < 65536 }
    requires layers { layers.layers < 65536 }
    requires paints { paints.glyphs < 65536 }
    requires places { paints.layers < 2 ^ 24 }
    requires size { paints.bytes < 2 ^ 24 }
    requires boxes { boxes.glyphs < 65536 }
    requires box_size { boxes.bytes < 2 ^ 24 }
    ensures { ArePlaces layers.glyphs layers.layers paints.glyphs paints.layers paints.bytes boxes.glyphs
        boxes.bytes result }
{
    let bases = 34 + (6 * u32::from(layers.glyphs) + 4 * u32::from(layers.layers));
    let layer_list = bases + list_size(0, 6, paints.glyphs);
    let first_paint = layer_list + list_size(0, 4, paints.layers);
    let clips = first_paint + paints.bytes;
    let first_box = clips + list_size(1, 7, boxes.glyphs);
    Places {
        bases,
        layers: layer_list,
        paints: first_paint,
        clips,
        boxes: first_box,
        map: first_box + boxes.bytes,
    }
}

/// Returns how much there is of what is said of glyphs, and where it stands.
pub(crate) fn plan_of<C: Coloured>(colours: &C, n: u16) -> Plan
    requires { colours_have_room n (C.colours colours.now) ≡ true }
    ensures { IsPlanOf n (C.colours colours.now) result }
{
    let layers = count_layers(&LayersOf { colours }, n);
    let paints = count_trees(&PaintsOf { colours }, n);
    let boxes = count_trees(&BoxesOf { colours }, n);
    let at = places_of(layers, paints, boxes);
    Plan {
        layers,
        paints,
        boxes,
        at,
    }
}
