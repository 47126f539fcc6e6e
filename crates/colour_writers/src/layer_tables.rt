//! Colour tables of version 0 that are written. OpenType 1.9, COLR, Header.
ghost use Rattle.std.specs.Prelude.{◌≡◌, ◌+◌, ◌<◌, ◌≤◌, IfOk, OnErr, length, true};
ghost use Rattle.sfnt_bytes.specs.Memory.{IsRefused};
ghost use Rattle.colour_tables.specs.LayerLists.{layers_have_room};
ghost use Rattle.colour_tables.specs.MadeLayers.{layer_table};

use crate::layers::{count_layers, push_base_rows, push_header, push_layer_rows};
use crate::picked::Layered;
use sfnt_bytes::{Memory, NoMemory};

/// How many bytes stand before the BaseGlyph records.
const HEADER: u16 = 14;

/// How many bytes a BaseGlyph record has.
const BASE: usize = 6;

/// How many bytes a Layer record has.
const LAYER: usize = 4;

/// Returns the table of the layers of glyphs. It asks for memory once, for the whole table.
///
/// # Errors
///
/// `NoMemory` if out of memory.
pub(crate) fn write_layer_table<P: Layered, A: Memory>(
    alloc: A,
    picked: &P,
    n: u16,
) -> Result<Vec<u8, A>, NoMemory>
    requires { layers_have_room n (P.said picked.now) ≡ true }
    ensures table { IfOk result (λ bytes. bytes.items ≡ layer_table n (P.said picked.now)) }
    ensures small { IfOk result (λ bytes. length bytes.items ≤ 1000000) }
    ensures memory { OnErr result (IsRefused A.refuses) }
{
    let counts = count_layers(picked, n);
    let rows = BASE * usize::from(counts.glyphs) + LAYER * usize::from(counts.layers);
    let mut made = alloc.room_for(usize::from(HEADER) + rows)?;
    push_header(&mut made, 0, HEADER, counts)?;
    push_base_rows(&mut made, picked, n)?;
    push_layer_rows(&mut made, picked, n)?;
    Ok(made)
}
