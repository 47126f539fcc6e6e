//! The lists of layers that are written. OpenType 1.9, COLR, Header; BaseGlyph and Layer records.
ghost use Rattle.std.specs.Prelude.{◌≡◌, ◌+◌, ◌<◌, ◌≤◌, ◌^◌, ◌++◌, ◌&&◌, ℕ, List, IfOk, IfSome, MatchOption, OnErr, OnOk, false, flat_map, length, nat_le, true};
ghost use Rattle.sfnt_bytes.specs.Memory.{IsRefused};
ghost use Rattle.colour_tables.specs.LayerLists.{are_layers, depth, layers_have_room};
ghost use Rattle.colour_tables.specs.ListedGlyphs.{listed, with_glyph};
ghost use Rattle.colour_tables.specs.MadeLayers.{base_rows, layer_bytes, layer_rows, layer_total, offset_of};
ghost use Rattle.colour_writers.specs.Inside.{header_of, here, layers_bytes};
ghost use Rattle.colour_tables.specs.declared.layer.Layer.{Layer as AnyLayer};

use crate::made_numbers::{push_u16, push_u32};
use crate::picked::Layered;
use colour_readers::GlyphLayers;
use colour_tables::Layer;
use sfnt_bytes::{Memory, NoMemory};

/// How many layers a table has at most.
const LAYERS: u16 = 65535;

// Puts a Layer record after what is made.
fn push_layer<A: Memory>(made: &mut Vec<u8, A>, layer: Layer) -> Result<(), NoMemory>
    ensures made { OnOk result (made.new.items ≡ made.old.items ++ layer_bytes layer) }
    ensures memory { OnErr result (IsRefused A.refuses) }
{
    push_u16(made, layer.glyph)?;
    push_u16(made, layer.palette_entry)
}

// Puts the Layer records of a glyph after what is made.
fn push_layers<A: Memory>(made: &mut Vec<u8, A>, layers: &GlyphLayers<'_>) -> Result<(), NoMemory>
    ensures made { OnOk result (made.new.items ≡ made.old.items ++ flat_map layer_bytes layers.now) }
    ensures memory { OnErr result (IsRefused A.refuses) }
{
    for j in 0..layers.count() {
        push_layer(made, layers.at(j))?;
    }
    Ok(())
}

// Puts the Layer records of a glyph, if it has any, after what is made.
fn push_layers_of<A: Memory>(
    made: &mut Vec<u8, A>,
    layers: Option<GlyphLayers<'_>>,
) -> Result<(), NoMemory>
    ensures made { OnOk result (made.new.items ≡ made.old.items ++ layers_bytes layers.entry) }
    ensures memory { OnErr result (IsRefused A.refuses) }
{
    match layers {
        Some(layers) => push_layers(made, &layers),
        None => Ok(()),
    }
}

/// Puts the Layer records of all glyphs after what is made.
pub(crate) fn push_layer_rows<P: Layered, A: Memory>(
    made: &mut Vec<u8, A>,
    picked: &P,
    n: u16,
) -> Result<(), NoMemory>
    ensures made { OnOk result
        (made.new.items ≡ made.old.items ++ layer_rows (listed (P.said picked.now) 0 n)) }
    ensures memory { OnErr result (IsRefused A.refuses) }
{
    for g in 0..n {
        push_layers_of(made, picked.layers(g))?;
    }
    Ok(())
}

// Puts the BaseGlyph record of a glyph, if it has layers, after what is made. Returns the index after its layers.
fn push_base<A: Memory>(
    made: &mut Vec<u8, A>,
    g: u16,
    layers: Option<GlyphLayers<'_>>,
    first: u16,
) -> Result<u16, NoMemory>
    requires { first + depth layers < 2 ^ 16 }
    ensures made { IfOk result (λ next. (rest : List (ℕ × List AnyLayer)) →
        made.new.items ++ base_rows next rest
        ≡ made.old.items ++ base_rows first (with_glyph g layers.entry rest)) }
    ensures next { IfOk result (λ next. next ≡ first + depth layers.entry) }
    ensures memory { OnErr result (IsRefused A.refuses) }
{
    match layers {
        Some(layers) => {
            let count = layers.count();
            push_u16(made, g)?;
            push_u16(made, first)?;
            push_u16(made, count)?;
            Ok(first + count)
        }
        None => Ok(first),
    }
}

/// Puts the BaseGlyph records of all glyphs after what is made.
pub(crate) fn push_base_rows<P: Layered, A: Memory>(
    made: &mut Vec<u8, A>,
    picked: &P,
    n: u16,
) -> Result<(), NoMemory>
    requires { layer_total (listed (P.said picked.now) 0 n) < 2 ^ 16 }
    ensures made { OnOk result
        (made.new.items ≡ made.old.items ++ base_rows 0 (listed (P.said picked.now) 0 n)) }
    ensures memory { OnErr result (IsRefused A.refuses) }
{
    let mut first = 0;
    for g in 0..n {
        first = push_base(made, g, picked.layers(g), first)?;
    }
    Ok(())
}

/// How many glyphs have layers, and how many layers there are.
#[derive(Clone, Copy)]
pub(crate) struct LayerCounts {
    pub(crate) glyphs: u16,
    pub(crate) layers: u16,
}

// Returns counts with a glyph more, if it has layers.
fn counted(counts: LayerCounts, layers: Option<GlyphLayers<'_>>) -> LayerCounts
    requires glyphs { counts.glyphs + here layers < 2 ^ 16 }
    requires layers { counts.layers + depth layers < 2 ^ 16 }
    ensures glyphs { result.glyphs ≡ counts.glyphs + here layers.entry }
    ensures layers { result.layers ≡ counts.layers + depth layers.entry }
{
    match layers {
        Some(more) => LayerCounts {
            glyphs: counts.glyphs + 1,
            layers: counts.layers + more.count(),
        },
        None => counts,
    }
}

/// Returns how many glyphs have layers, and how many layers there are.
pub(crate) fn count_layers<P: Layered>(picked: &P, n: u16) -> LayerCounts
    requires { layer_total (listed (P.said picked.now) 0 n) < 2 ^ 16 }
    ensures glyphs { result.glyphs ≡ length (listed (P.said picked.now) 0 n) }
    ensures layers { result.layers ≡ layer_total (listed (P.said picked.now) 0 n) }
{
    let mut counts = LayerCounts {
        glyphs: 0,
        layers: 0,
    };
    for g in 0..n {
        counts = counted(counts, picked.layers(g));
    }
    counts
}

// Returns whether all layers of a glyph are of glyphs.
fn are_layers(layers: &GlyphLayers<'_>, n: u16) -> bool
    ensures { result ≡ are_layers n (Some layers.now) }
{
    for j in 0..layers.count() {
        if n <= layers.at(j).glyph {
            return false;
        }
    }
    true
}

// Returns how many layers are left of so many after those of a glyph, none where they are not of glyphs or too many.
fn layers_left(layers: Option<GlyphLayers<'_>>, n: u16, room: u16) -> Option<u16>
    ensures { MatchOption result ((are_layers n layers.entry && nat_le (depth layers.entry) room) ≡ false)
        (λ left. (are_layers n layers.entry ≡ true) × (left + depth layers.entry ≡ room)) }
{
    match layers {
        Some(layers) => {
            if !are_layers(&layers, n) {
                return None;
            }
            room.checked_sub(layers.count())
        }
        None => Some(room),
    }
}

/// Returns whether the layers of glyphs are of glyphs, and have room in a table.
pub(crate) fn layers_have_room<P: Layered>(picked: &P, n: u16) -> bool
    ensures { result ≡ layers_have_room n (P.said picked.now) }
{
    let mut left = LAYERS;
    for g in 0..n {
        match layers_left(picked.layers(g), n, left) {
            Some(less) => left = less,
            None => return false,
        }
    }
    true
}

/// Returns the offset of a list: 0 where it is empty.
pub(crate) fn offset_or_none(count: usize, place: u32) -> u32
    ensures { result ≡ offset_of count place }
{
    if count == 0 { 0 } else { place }
}

/// Puts the header up to numLayerRecords after what is made.
#[tactic(auto, unfolding(crate::specs::Inside::header_of))]
pub(crate) fn push_header<A: Memory>(
    made: &mut Vec<u8, A>,
    version: u16,
    place: u16,
    counts: LayerCounts,
) -> Result<(), NoMemory>
    ensures made { OnOk result
        (made.new.items ≡ made.old.items ++ header_of version place counts.glyphs counts.layers) }
    ensures memory { OnErr result (IsRefused A.refuses) }
{
    let bases = u32::from(counts.glyphs);
    let bases_place = u32::from(place);
    push_u16(made, version)?;
    push_u16(made, counts.glyphs)?;
    push_u32(
        made,
        offset_or_none(usize::from(counts.glyphs), bases_place),
    )?;
    push_u32(
        made,
        offset_or_none(usize::from(counts.layers), bases_place + 6 * bases),
    )?;
    push_u16(made, counts.layers)
}
