//! The lists of paints and of clip boxes that are written. OpenType 1.9, COLR, BaseGlyphList, LayerList and ClipList
//! tables.
ghost use Rattle.std.specs.Prelude.{◌≡◌, ◌+◌, ◌<◌, ◌≤◌, ◌^◌, ◌++◌, IfOk, OnErr, OnOk, length};
ghost use Rattle.std.specs.Option.{option_map};
ghost use Rattle.sfnt_bytes.specs.Memory.{IsRefused};
ghost use Rattle.colour_tables.specs.ListedGlyphs.{listed};
ghost use Rattle.colour_tables.specs.MadePaints.{base_list, clip_list, clip_rows, forest_bytes, forest_layers, forest_of, forest_places, layer_list, place_rows, root_rows, rooted};
ghost use Rattle.colour_tables.specs.PaintLists.{forest_size};
ghost use Rattle.colour_readers.specs.Subtrees.{tree_of};
ghost use Rattle.colour_writers.specs.Inside.{here, size_here, layers_here, root_bytes, clip_bytes, bytes_here, places_here};

use crate::made_numbers::{push_u16, push_u24, push_u32};
use crate::made_trees::{count_layers, push_places, push_tree, size_of};
use crate::picked::Planted;
use colour_readers::TableTree;
use sfnt_bytes::{Memory, NoMemory};

/// How many glyphs have trees, how many layers these list, and how many bytes they have.
#[derive(Clone, Copy)]
pub(crate) struct TreeCounts {
    pub(crate) glyphs: u32,
    pub(crate) layers: u32,
    pub(crate) bytes: u32,
}

// Returns counts with the tree of a glyph more, if it has one.
fn counted(counts: TreeCounts, tree: &Option<TableTree<'_>>) -> TreeCounts
    requires glyphs { counts.glyphs < 65536 }
    requires layers { counts.layers + layers_here (option_map tree_of tree.now) < 2 ^ 24 }
    requires bytes { counts.bytes + size_here (option_map tree_of tree.now) < 2 ^ 24 }
    ensures glyphs { result.glyphs ≡ counts.glyphs + here (option_map tree_of tree.now) }
    ensures layers { result.layers ≡ counts.layers + layers_here (option_map tree_of tree.now) }
    ensures bytes { result.bytes ≡ counts.bytes + size_here (option_map tree_of tree.now) }
{
    match tree {
        Some(tree) => TreeCounts {
            glyphs: counts.glyphs + 1,
            layers: counts.layers + count_layers(tree),
            bytes: counts.bytes + size_of(tree),
        },
        None => counts,
    }
}

/// Returns how many glyphs have trees, how many layers these list, and how many bytes they have.
pub(crate) fn count_trees<P: Planted>(picked: &P, n: u16) -> TreeCounts
    requires { forest_size (forest_of (listed (P.trees picked.now) 0 n)) < 2 ^ 24 }
    ensures glyphs { result.glyphs ≡ length (listed (P.trees picked.now) 0 n) }
    ensures layers { result.layers ≡ forest_layers (forest_of (listed (P.trees picked.now) 0 n)) }
    ensures bytes { result.bytes ≡ forest_size (forest_of (listed (P.trees picked.now) 0 n)) }
{
    let mut counts = TreeCounts {
        glyphs: 0,
        layers: 0,
        bytes: 0,
    };
    for g in 0..n {
        counts = counted(counts, &picked.tree(g));
    }
    counts
}

// Puts the BaseGlyphPaintRecord of a glyph, if it has a tree, after what is made. Returns the place after the tree.
fn push_root<A: Memory>(
    made: &mut Vec<u8, A>,
    g: u16,
    tree: &Option<TableTree<'_>>,
    list: u32,
    at: u32,
) -> Result<u32, NoMemory>
    requires size { size_here (option_map tree_of tree.now) < 2 ^ 24 }
    requires place { list ≤ at }
    requires room { at + size_here (option_map tree_of tree.now) < 2 ^ 32 }
    ensures made { IfOk result (λ next. made.new.items
        ≡ made.old.items ++ root_bytes list g at (option_map tree_of tree.now)) }
    ensures next { IfOk result (λ next. next ≡ at + size_here (option_map tree_of tree.now)) }
    ensures memory { OnErr result (IsRefused A.refuses) }
{
    match tree {
        Some(tree) => {
            push_u16(made, g)?;
            push_u32(made, at - list)?;
            Ok(at + size_of(tree))
        }
        None => Ok(at),
    }
}

// Puts the BaseGlyphPaintRecords of all glyphs after what is made.
fn push_roots<P: Planted, A: Memory>(
    made: &mut Vec<u8, A>,
    picked: &P,
    n: u16,
    list: u32,
    at: u32,
) -> Result<(), NoMemory>
    requires size { forest_size (forest_of (listed (P.trees picked.now) 0 n)) < 2 ^ 24 }
    requires place { list ≤ at }
    requires room { at < 2 ^ 31 }
    ensures made { OnOk result (made.new.items
        ≡ made.old.items ++ root_rows list (rooted at (listed (P.trees picked.now) 0 n))) }
    ensures memory { OnErr result (IsRefused A.refuses) }
{
    let mut place = at;
    for g in 0..n {
        place = push_root(made, g, &picked.tree(g), list, place)?;
    }
    Ok(())
}

// Puts the Clip of a glyph, if it has a tree, after what is made. Returns the place after the tree.
fn push_clip<A: Memory>(
    made: &mut Vec<u8, A>,
    g: u16,
    tree: &Option<TableTree<'_>>,
    list: u32,
    at: u32,
) -> Result<u32, NoMemory>
    requires size { size_here (option_map tree_of tree.now) < 2 ^ 24 }
    requires place { list ≤ at }
    requires near { at < list + 2 ^ 24 }
    requires room { at + size_here (option_map tree_of tree.now) < 2 ^ 32 }
    ensures made { IfOk result (λ next. made.new.items
        ≡ made.old.items ++ clip_bytes list g at (option_map tree_of tree.now)) }
    ensures next { IfOk result (λ next. next ≡ at + size_here (option_map tree_of tree.now)) }
    ensures memory { OnErr result (IsRefused A.refuses) }
{
    match tree {
        Some(tree) => {
            push_u16(made, g)?;
            push_u16(made, g)?;
            push_u24(made, at - list)?;
            Ok(at + size_of(tree))
        }
        None => Ok(at),
    }
}

// Puts the Clips of all glyphs after what is made.
fn push_clips<P: Planted, A: Memory>(
    made: &mut Vec<u8, A>,
    picked: &P,
    n: u16,
    list: u32,
    at: u32,
) -> Result<(), NoMemory>
    requires size { forest_size (forest_of (listed (P.trees picked.now) 0 n)) < 2 ^ 24 }
    requires place { list ≤ at }
    requires near { at + forest_size (forest_of (listed (P.trees picked.now) 0 n)) < list + 2 ^ 24 }
    requires room { at < 2 ^ 31 }
    ensures made { OnOk result (made.new.items
        ≡ made.old.items ++ clip_rows list (rooted at (listed (P.trees picked.now) 0 n))) }
    ensures memory { OnErr result (IsRefused A.refuses) }
{
    let mut place = at;
    for g in 0..n {
        place = push_clip(made, g, &picked.tree(g), list, place)?;
    }
    Ok(())
}

// Puts the places of the layers of a tree, if there is one, after what is made. Returns the place after it.
fn push_places_of<A: Memory>(
    made: &mut Vec<u8, A>,
    tree: &Option<TableTree<'_>>,
    list: u32,
    at: u32,
) -> Result<u32, NoMemory>
    requires size { size_here (option_map tree_of tree.now) < 2 ^ 24 }
    requires place { list ≤ at }
    requires room { at + size_here (option_map tree_of tree.now) < 2 ^ 32 }
    ensures made { IfOk result (λ next. made.new.items
        ≡ made.old.items ++ place_rows list (places_here at (option_map tree_of tree.now))) }
    ensures next { IfOk result (λ next. next ≡ at + size_here (option_map tree_of tree.now)) }
    ensures memory { OnErr result (IsRefused A.refuses) }
{
    match tree {
        Some(tree) => push_places(made, tree, list, at),
        None => Ok(at),
    }
}

// Puts the places of all layers after what is made.
fn push_all_places<P: Planted, A: Memory>(
    made: &mut Vec<u8, A>,
    picked: &P,
    n: u16,
    list: u32,
    at: u32,
) -> Result<(), NoMemory>
    requires size { forest_size (forest_of (listed (P.trees picked.now) 0 n)) < 2 ^ 24 }
    requires place { list ≤ at }
    requires room { at < 2 ^ 31 }
    ensures made { OnOk result (made.new.items
        ≡ made.old.items
        ++ place_rows list (forest_places at (forest_of (listed (P.trees picked.now) 0 n)))) }
    ensures memory { OnErr result (IsRefused A.refuses) }
{
    let mut place = at;
    for g in 0..n {
        place = push_places_of(made, &picked.tree(g), list, place)?;
    }
    Ok(())
}

// Puts a tree, if there is one, after what is made. Returns the index after its layers.
fn push_tree_of<A: Memory>(
    made: &mut Vec<u8, A>,
    tree: &Option<TableTree<'_>>,
    index: u32,
) -> Result<u32, NoMemory>
    requires size { size_here (option_map tree_of tree.now) < 2 ^ 24 }
    requires layers { index + layers_here (option_map tree_of tree.now) < 2 ^ 32 }
    ensures made { IfOk result (λ next. made.new.items
        ≡ made.old.items ++ bytes_here index (option_map tree_of tree.now)) }
    ensures next { IfOk result (λ next. next ≡ index + layers_here (option_map tree_of tree.now)) }
    ensures memory { OnErr result (IsRefused A.refuses) }
{
    match tree {
        Some(tree) => push_tree(made, tree, index),
        None => Ok(index),
    }
}

/// Puts all trees after what is made.
pub(crate) fn push_trees<P: Planted, A: Memory>(
    made: &mut Vec<u8, A>,
    picked: &P,
    n: u16,
) -> Result<(), NoMemory>
    requires { forest_size (forest_of (listed (P.trees picked.now) 0 n)) < 2 ^ 24 }
    ensures made { OnOk result (made.new.items
        ≡ made.old.items ++ forest_bytes 0 (forest_of (listed (P.trees picked.now) 0 n))) }
    ensures memory { OnErr result (IsRefused A.refuses) }
{
    let mut index = 0;
    for g in 0..n {
        index = push_tree_of(made, &picked.tree(g), index)?;
    }
    Ok(())
}

/// Puts the BaseGlyphList of so many glyphs at a place after what is made. The first paint stands at another.
pub(crate) fn push_base_list<P: Planted, A: Memory>(
    made: &mut Vec<u8, A>,
    picked: &P,
    n: u16,
    count: u32,
    list: u32,
    at: u32,
) -> Result<(), NoMemory>
    requires count { count ≡ length (listed (P.trees picked.now) 0 n) }
    requires size { forest_size (forest_of (listed (P.trees picked.now) 0 n)) < 2 ^ 24 }
    requires place { list ≤ at }
    requires room { at < 2 ^ 31 }
    ensures made { OnOk result (made.new.items
        ≡ made.old.items ++ base_list list (rooted at (listed (P.trees picked.now) 0 n))) }
    ensures memory { OnErr result (IsRefused A.refuses) }
{
    if count == 0 {
        return Ok(());
    }
    push_u32(made, count)?;
    push_roots(made, picked, n, list, at)?;
    Ok(())
}

/// Puts the LayerList of so many layers at a place after what is made. The first paint stands at another.
pub(crate) fn push_layer_list<P: Planted, A: Memory>(
    made: &mut Vec<u8, A>,
    picked: &P,
    n: u16,
    count: u32,
    list: u32,
    at: u32,
) -> Result<(), NoMemory>
    requires count { count ≡ forest_layers (forest_of (listed (P.trees picked.now) 0 n)) }
    requires size { forest_size (forest_of (listed (P.trees picked.now) 0 n)) < 2 ^ 24 }
    requires place { list ≤ at }
    requires room { at < 2 ^ 31 }
    ensures made { OnOk result (made.new.items
        ≡ made.old.items
        ++ layer_list list (forest_places at (forest_of (listed (P.trees picked.now) 0 n)))) }
    ensures memory { OnErr result (IsRefused A.refuses) }
{
    if count == 0 {
        return Ok(());
    }
    push_u32(made, count)?;
    push_all_places(made, picked, n, list, at)?;
    Ok(())
}

/// Puts the ClipList of so many glyphs at a place after what is made. The first clip box stands at another.
pub(crate) fn push_clip_list<P: Planted, A: Memory>(
    made: &mut Vec<u8, A>,
    picked: &P,
    n: u16,
    count: u32,
    list: u32,
    at: u32,
) -> Result<(), NoMemory>
    requires count { count ≡ length (listed (P.trees picked.now) 0 n) }
    requires size { forest_size (forest_of (listed (P.trees picked.now) 0 n)) < 2 ^ 24 }
    requires place { list ≤ at }
    requires near { at + forest_size (forest_of (listed (P.trees picked.now) 0 n)) < list + 2 ^ 24 }
    requires room { at < 2 ^ 31 }
    ensures made { OnOk result (made.new.items
        ≡ made.old.items ++ clip_list list (rooted at (listed (P.trees picked.now) 0 n))) }
    ensures memory { OnErr result (IsRefused A.refuses) }
{
    if count == 0 {
        return Ok(());
    }
    A::push(made, 1)?;
    push_u32(made, count)?;
    push_clips(made, picked, n, list, at)?;
    Ok(())
}
