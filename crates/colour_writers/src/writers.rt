//! Colour tables that are written of what two of them say. OpenType 1.9, COLR.
ghost use Rattle.std.specs.Prelude.{◌≡◌, ◌+◌, ◌<◌, ◌≤◌, ◌^◌, IfOk, OnErr, length, true};
ghost use Rattle.sfnt_bytes.specs.Memory.{IsRefused};
ghost use Rattle.colour_tables.specs.LayerLists.{layers_have_room};
ghost use Rattle.colour_tables.specs.MadeLayers.{layer_table};
ghost use Rattle.colour_tables.specs.MadePaints.{paint_table};
ghost use Rattle.colour_tables.specs.PaintLists.{colours_have_room};
ghost use Rattle.colour_readers.specs.Varying.{store_by};
ghost use Rattle.colour_writers.specs.Picked.{picked_colour, picked_layers};

use crate::layer_tables::write_layer_table;
use crate::layers::layers_have_room;
use crate::made_paints::write_table;
use crate::picked::{PickedColours, PickedLayers};
use crate::rooms::colours_have_room;
use crate::sides::Sides;
use colour_readers::{LayerTable, PaintTable, Varies};
use sfnt_bytes::{Memory, NoMemory};

/// Returns whether what two tables of version 0 say, each of the glyphs of its side, has room in one.
pub fn layers_fit<'t, S: Sides>(one: &LayerTable<'t>, other: &LayerTable<'t>, sides: &S) -> bool
    requires { one.now.1 ≡ other.now.1 }
    ensures { result ≡ layers_have_room one.now.1
        (picked_layers (S.side sides.now) one.now.0 other.now.0) }
{
    layers_have_room(&PickedLayers { one, other, sides }, one.count())
}

/// Returns the table of version 0 of what two tables say, each of the glyphs of its side.
///
/// It asks for memory once, for the whole table.
///
/// # Errors
///
/// `NoMemory` if out of memory.
pub fn write_layers<'t, S: Sides, A: Memory>(
    alloc: A,
    one: &LayerTable<'t>,
    other: &LayerTable<'t>,
    sides: &S,
) -> Result<Vec<u8, A>, NoMemory>
    requires count { one.now.1 ≡ other.now.1 }
    requires fit { layers_have_room one.now.1
        (picked_layers (S.side sides.now) one.now.0 other.now.0) ≡ true }
    ensures table { IfOk result (λ bytes. bytes.items ≡ layer_table one.now.1
        (picked_layers (S.side sides.now) one.now.0 other.now.0)) }
    ensures small { IfOk result (λ bytes. length bytes.items ≤ 1000000) }
    ensures memory { OnErr result (IsRefused A.refuses) }
{
    write_layer_table(alloc, &PickedLayers { one, other, sides }, one.count())
}

/// Returns whether what two tables of version 1 say, each of the glyphs of its side, has room in one.
pub fn paints_fit<'t, S: Sides>(one: &PaintTable<'t>, other: &PaintTable<'t>, sides: &S) -> bool
    requires { one.now.1 ≡ other.now.1 }
    ensures { result ≡ colours_have_room one.now.1
        (picked_colour (S.side sides.now) one.now.1 one.now.0 other.now.0) }
{
    colours_have_room(&PickedColours { one, other, sides }, one.count())
}

/// Returns the table of version 1 of what two tables say, each of the glyphs of its side, and of what varies.
///
/// It asks for memory once, for the whole table. The map of what varies stands before the store, so it is no longer than
/// an offset reaches.
///
/// # Errors
///
/// `NoMemory` if out of memory.
pub fn write_paints<'t, S: Sides, A: Memory>(
    alloc: A,
    one: &PaintTable<'t>,
    other: &PaintTable<'t>,
    sides: &S,
    varies: Varies<'_>,
) -> Result<Vec<u8, A>, NoMemory>
    requires count { one.now.1 ≡ other.now.1 }
    requires fit { colours_have_room one.now.1
        (picked_colour (S.side sides.now) one.now.1 one.now.0 other.now.0) ≡ true }
    requires map { length varies.index_map.now < 2 ^ 31 }
    ensures table { IfOk result (λ bytes. bytes.items ≡ paint_table one.now.1 (store_by varies.entry)
        (picked_colour (S.side sides.now) one.now.1 one.now.0 other.now.0)) }
    ensures small { IfOk result (λ bytes. length bytes.items ≤ 100000000
        + length varies.entry.index_map.now + length varies.entry.store.now) }
    ensures memory { OnErr result (IsRefused A.refuses) }
{
    write_table(
        alloc,
        &PickedColours { one, other, sides },
        one.count(),
        &varies,
    )
}
