//! Trees that are written: each is followed by what its offsets lead to. OpenType 1.9, COLR, Paint tables.
ghost use Rattle.std.specs.Prelude.{◌≡◌, ◌+◌, ◌<◌, ◌≤◌, ◌^◌, ◌++◌, ◌∷◌, [], IfOk, OnErr, OnOk};
ghost use Rattle.sfnt_bytes.specs.Memory.{IsRefused};
ghost use Rattle.colour_tables.specs.MadePaints.{first_size, own_count, own_places, place_rows, shape_bytes, starts};
ghost use Rattle.colour_tables.specs.PaintLists.{forest_size, tree_size};
ghost use Rattle.colour_tables.specs.Paints.{shape_size};
ghost use Rattle.colour_readers.specs.Subtrees.{tree_of};
ghost use Rattle.colour_writers.specs.Inside.{tree_bytes, tree_layers, tree_places};

use crate::made_numbers::{push_u24, push_u32};
use colour_readers::TableTree;
use colour_tables::Shape;
use sfnt_bytes::{Memory, NoMemory};

/// How many bytes all trees have at most.
const BYTES: u64 = 16_777_215;

/// Returns how many bytes a tree has.
pub(crate) fn size_of(tree: &TableTree<'_>) -> u32
    requires { tree_size (tree_of tree.now) < 2 ^ 24 }
    ensures { result ≡ tree_size (tree_of tree.now) }
{
    match tree.room_after(BYTES) {
        Some(left) => (BYTES - left) as u32,
        None => 0,
    }
}

// Returns how many bytes the first tree below a tree has.
fn first_size(tree: &TableTree<'_>) -> u32
    requires { tree_size (tree_of tree.now) < 2 ^ 24 }
    ensures { result ≡ first_size (tree_of tree.now).below }
{
    if tree.count_below() == 0 {
        return 0;
    }
    size_of(&tree.below(0))
}

// Puts the bytes of a tree, but for those below it, after what is made. Layers are numbered from an index on.
fn push_shape<A: Memory>(
    made: &mut Vec<u8, A>,
    tree: &TableTree<'_>,
    index: u32,
) -> Result<(), NoMemory>
    requires { tree_size (tree_of tree.now) < 2 ^ 24 }
    ensures made { OnOk result (made.new.items ≡ made.old.items ++ shape_bytes (tree_of tree.now).shape
        (tree_of tree.now).first (tree_of tree.now).rest (first_size (tree_of tree.now).below) index) }
    ensures memory { OnErr result (IsRefused A.refuses) }
{
    A::push(made, tree.first())?;
    match tree.shape() {
        Shape::Plain(_) => A::append(made, tree.rest()),
        Shape::One(more, _) => {
            push_u24(made, 4 + more)?;
            A::append(made, tree.rest())
        }
        Shape::Two(more, _, _) => {
            push_u24(made, 7 + more)?;
            A::append(made, tree.rest())?;
            push_u24(made, 7 + more + first_size(tree))
        }
        Shape::Layers => {
            A::append(made, tree.rest())?;
            push_u32(made, index)
        }
    }
}

// Returns how many layers a tree itself lists.
fn own_count(tree: &TableTree<'_>) -> u32
    ensures { result ≡ own_count (tree_of tree.now).shape (tree_of tree.now).below }
{
    match tree.shape() {
        Shape::Layers => u32::from(tree.count_below()),
        _ => 0,
    }
}

/// Returns how many layers a tree and the trees below it list.
pub(crate) fn count_layers(tree: &TableTree<'_>) -> u32
    requires { tree_size (tree_of tree.now) < 2 ^ 24 }
    ensures { result ≡ tree_layers (tree_of tree.now) }
{
    let mut count = own_count(tree);
    for i in 0..tree.count_below() {
        count += count_layers(&tree.below(i));
    }
    count
}

/// Puts a tree after what is made, its layers numbered from an index on. Returns the index after them.
pub(crate) fn push_tree<A: Memory>(
    made: &mut Vec<u8, A>,
    tree: &TableTree<'_>,
    index: u32,
) -> Result<u32, NoMemory>
    requires size { tree_size (tree_of tree.now) < 2 ^ 24 }
    requires layers { index + tree_layers (tree_of tree.now) < 2 ^ 32 }
    ensures made { IfOk result
        (λ next. made.new.items ≡ made.old.items ++ tree_bytes index (tree_of tree.now)) }
    ensures next { IfOk result (λ next. next ≡ index + tree_layers (tree_of tree.now)) }
    ensures memory { OnErr result (IsRefused A.refuses) }
{
    push_shape(made, tree, index)?;
    let mut next = index + own_count(tree);
    for i in 0..tree.count_below() {
        next = push_tree(made, &tree.below(i), next)?;
    }
    Ok(next)
}

// Puts the places of the layers that a tree itself lists after what is made, from that of their list. What is below it
// stands at a place.
fn push_own_places<A: Memory>(
    made: &mut Vec<u8, A>,
    tree: &TableTree<'_>,
    list: u32,
    at: u32,
) -> Result<(), NoMemory>
    requires size { tree_size (tree_of tree.now) < 2 ^ 24 }
    requires place { list ≤ at }
    requires room { at + forest_size (tree_of tree.now).below < 2 ^ 32 }
    ensures made { OnOk result (made.new.items ≡ made.old.items
        ++ place_rows list (own_places (tree_of tree.now).shape at (tree_of tree.now).below)) }
    ensures memory { OnErr result (IsRefused A.refuses) }
{
    match tree.shape() {
        Shape::Layers => push_starts(made, tree, list, at),
        _ => Ok(()),
    }
}

// Puts the places of the trees below a tree after what is made, from that of a list. The first of them stands at a
// place.
fn push_starts<A: Memory>(
    made: &mut Vec<u8, A>,
    tree: &TableTree<'_>,
    list: u32,
    at: u32,
) -> Result<(), NoMemory>
    requires size { tree_size (tree_of tree.now) < 2 ^ 24 }
    requires place { list ≤ at }
    requires room { at + forest_size (tree_of tree.now).below < 2 ^ 32 }
    ensures made { OnOk result (made.new.items ≡ made.old.items
        ++ place_rows list (starts at (tree_of tree.now).below)) }
    ensures memory { OnErr result (IsRefused A.refuses) }
{
    let mut place = at;
    for i in 0..tree.count_below() {
        push_u32(made, place - list)?;
        place += size_of(&tree.below(i));
    }
    Ok(())
}

/// Puts the places of all layers of a tree at a place after what is made, from that of their list. Returns the place
/// after the tree.
pub(crate) fn push_places<A: Memory>(
    made: &mut Vec<u8, A>,
    tree: &TableTree<'_>,
    list: u32,
    at: u32,
) -> Result<u32, NoMemory>
    requires size { tree_size (tree_of tree.now) < 2 ^ 24 }
    requires place { list ≤ at }
    requires room { at + tree_size (tree_of tree.now) < 2 ^ 32 }
    ensures made { IfOk result (λ next. made.new.items ≡ made.old.items
        ++ place_rows list (tree_places at (tree_of tree.now))) }
    ensures next { IfOk result (λ next. next ≡ at + tree_size (tree_of tree.now)) }
    ensures memory { OnErr result (IsRefused A.refuses) }
{
    let mut place = at + shape_length(tree);
    push_own_places(made, tree, list, place)?;
    for i in 0..tree.count_below() {
        place = push_places(made, &tree.below(i), list, place)?;
    }
    Ok(place)
}

// Returns how many bytes a tree has but for those below it.
fn shape_length(tree: &TableTree<'_>) -> u32
    requires { tree_size (tree_of tree.now) < 2 ^ 24 }
    ensures { result ≡ shape_size (tree_of tree.now).shape }
{
    match tree.shape() {
        Shape::Plain(more) => 1 + more as u32,
        Shape::One(more, _) => 4 + more,
        Shape::Two(more, _, _) => 7 + more,
        Shape::Layers => 6,
    }
}
