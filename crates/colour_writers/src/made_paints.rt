//! Colour tables of version 1 that are written. OpenType 1.9, COLR, Header.
ghost use Rattle.std.specs.Prelude.{◌≡◌, ◌+◌, ◌<◌, ◌≤◌, ◌^◌, ◌++◌, IfOk, OnErr, OnOk, length, true};
ghost use Rattle.sfnt_bytes.specs.Memory.{IsRefused};
ghost use Rattle.colour_tables.specs.Laws.{AreRead};
ghost use Rattle.colour_tables.specs.MadePaints.{paint_lists, paint_table};
ghost use Rattle.colour_tables.specs.PaintLists.{colours_have_room};
ghost use Rattle.colour_readers.specs.Varying.{store_by};
ghost use Rattle.colour_writers.specs.Inside.{paint_header_of};
ghost use Rattle.colour_writers.specs.Plans.{IsPlanOf, boxes_of, front_bytes, layers_of, paints_of};

use crate::layers::{offset_or_none, push_base_rows, push_header, push_layer_rows};
use crate::made_lists::{push_base_list, push_clip_list, push_layer_list, push_trees};
use crate::made_numbers::push_u32;
use crate::picked::{BoxesOf, Coloured, LayersOf, PaintsOf};
use crate::plans::{Plan, plan_of};
use colour_readers::Varies;
use sfnt_bytes::{Memory, NoMemory};

/// How many bytes stand before the BaseGlyph records.
const HEADER: u16 = 34;

// Puts the header after numLayerRecords after what is made.
fn push_paint_header<A: Memory>(
    made: &mut Vec<u8, A>,
    plan: Plan,
    varies: &Varies<'_>,
) -> Result<(), NoMemory>
    requires { plan.at.map + length varies.now.index_map.now < 2 ^ 32 }
    ensures made { OnOk result (made.new.items ≡ made.old.items ++ paint_header_of plan.paints.glyphs
        plan.paints.layers plan.boxes.glyphs (length varies.now.index_map.now)
        (length varies.now.store.now) plan.at) }
    ensures memory { OnErr result (IsRefused A.refuses) }
{
    let at = plan.at;
    push_u32(made, offset_or_none(plan.paints.glyphs as usize, at.bases))?;
    push_u32(made, offset_or_none(plan.paints.layers as usize, at.layers))?;
    push_u32(made, offset_or_none(plan.boxes.glyphs as usize, at.clips))?;
    push_u32(made, offset_or_none(varies.index_map.len(), at.map))?;
    push_u32(
        made,
        offset_or_none(varies.store.len(), at.map + varies.index_map.len() as u32),
    )?;
    Ok(())
}

// Puts the header and the lists of layers after what is made.
fn push_front<C: Coloured, A: Memory>(
    made: &mut Vec<u8, A>,
    colours: &C,
    n: u16,
    plan: Plan,
    varies: &Varies<'_>,
) -> Result<(), NoMemory>
    requires plan { IsPlanOf n (C.colours colours.now) plan }
    requires room { plan.at.map + length varies.now.index_map.now < 2 ^ 32 }
    ensures made { OnOk result
        (made.new.items ≡ made.old.items ++ front_bytes n (C.colours colours.now) (store_by varies.now)) }
    ensures memory { OnErr result (IsRefused A.refuses) }
{
    push_header(made, 1, HEADER, plan.layers)?;
    push_paint_header(made, plan, varies)?;
    push_base_rows(made, &LayersOf { colours }, n)?;
    push_layer_rows(made, &LayersOf { colours }, n)?;
    Ok(())
}

// Puts what stands after the lists of layers after what is made.
fn push_lists<C: Coloured, A: Memory>(
    made: &mut Vec<u8, A>,
    colours: &C,
    n: u16,
    plan: Plan,
    varies: &Varies<'_>,
) -> Result<(), NoMemory>
    requires plan { IsPlanOf n (C.colours colours.now) plan }
    requires read { AreRead n (C.colours colours.now) }
    ensures made { OnOk result (made.new.items ≡ made.old.items
        ++ paint_lists (layers_of n (C.colours colours.now)) (paints_of n (C.colours colours.now))
        (boxes_of n (C.colours colours.now)) (store_by varies.now)) }
    ensures memory { OnErr result (IsRefused A.refuses) }
{
    let paints = PaintsOf { colours };
    let boxes = BoxesOf { colours };
    let at = plan.at;
    push_base_list(made, &paints, n, plan.paints.glyphs, at.bases, at.paints)?;
    push_layer_list(made, &paints, n, plan.paints.layers, at.layers, at.paints)?;
    push_trees(made, &paints, n)?;
    push_clip_list(made, &boxes, n, plan.boxes.glyphs, at.clips, at.boxes)?;
    push_trees(made, &boxes, n)?;
    A::append(made, varies.index_map)?;
    A::append(made, varies.store)?;
    Ok(())
}

/// Returns the table of what is said of glyphs, and of what varies. It asks for memory once, for the whole table.
///
/// # Errors
///
/// `NoMemory` if out of memory.
pub(crate) fn write_table<C: Coloured, A: Memory>(
    alloc: A,
    colours: &C,
    n: u16,
    varies: &Varies<'_>,
) -> Result<Vec<u8, A>, NoMemory>
    requires room { colours_have_room n (C.colours colours.now) ≡ true }
    requires read { AreRead n (C.colours colours.now) }
    requires map { length varies.now.index_map.now < 2 ^ 31 }
    ensures table { IfOk result
        (λ bytes. bytes.items ≡ paint_table n (store_by varies.now) (C.colours colours.now)) }
    ensures small { IfOk result (λ bytes. length bytes.items ≤ 100000000
        + length varies.now.index_map.now + length varies.now.store.now) }
    ensures memory { OnErr result (IsRefused A.refuses) }
{
    let plan = plan_of(colours, n);
    let size = plan.at.map as usize + varies.index_map.len();
    let mut made = alloc.room_for(size.saturating_add(varies.store.len()))?;
    push_front(&mut made, colours, n, plan, varies)?;
    push_lists(&mut made, colours, n, plan, varies)?;
    Ok(made)
}
