//! The fields of a tree that a table has, and the trees that its offsets lead to. OpenType 1.9, COLR, Paint tables.
ghost use Rattle.std.specs.Prelude.{◌≡◌, ◌+◌, ◌<◌, ◌≤◌, ◌^◌, MatchOption, Some, is_some, length, true};
ghost use Rattle.colour_tables.specs.MadePaints.{forest_count};
ghost use Rattle.colour_tables.specs.PaintLists.{layer_places_of, tree_in, tree_size};
ghost use Rattle.colour_tables.specs.Paints.{kinds_below, shape_size, tree_at, with_tree};
ghost use Rattle.colour_readers.specs.Subtrees.{tree_of, trees_after};

use crate::fields::{byte_at, bytes_from};
use crate::paint_trees::{DEPTH, room_after};
use crate::shapes::{count_links, link_at, rest_of, shape_at};
use crate::table_tree::TableTree;
use colour_tables::{Kind, Shape};

// Returns the tree at a place, nested so deep at most.
fn tree_from(bytes: &[u8], count: u16, at: usize, kind: Kind, depth: u8) -> TableTree<'_>
    requires { is_some (tree_at count bytes.now (layer_places_of bytes.now) depth at kind) ≡ true }
    ensures { Some (tree_of result) ≡ tree_at count bytes.now (layer_places_of bytes.now) depth at kind }
{
    let Some(shape) = shape_at(bytes, count, at, kind) else {
        unreachable!()
    };
    TableTree {
        bytes,
        count,
        at,
        kind,
        depth,
        shape,
    }
}

/// Returns the tree of a kind at a place of a table.
#[tactic(auto, unfolding(colour_tables::specs::PaintLists::tree_in, colour_tables::specs::Paints::MAX_DEPTH))]
pub(crate) fn tree_in(bytes: &[u8], count: u16, at: usize, kind: Kind) -> TableTree<'_>
    requires { is_some (tree_in count bytes.now kind at) ≡ true }
    ensures { Some (tree_of result) ≡ tree_in count bytes.now kind at }
{
    tree_from(bytes, count, at, kind, DEPTH)
}

impl<'t> TableTree<'t> {
    /// Returns its shape.
    pub fn shape(&self) -> Shape
        ensures value { result ≡ (tree_of self.now).shape }
        ensures small { shape_size result < 2 ^ 50 }
    {
        self.shape
    }

    /// Returns its first byte.
    pub fn first(&self) -> u8
        ensures { result ≡ (tree_of self.now).first }
    {
        byte_at(bytes_from(self.bytes, self.at), 0)
    }

    /// Returns its bytes but for the first and for offsets.
    pub fn rest(&self) -> &'t [u8]
        ensures { result.now ≡ (tree_of self.now).rest }
    {
        rest_of(bytes_from(self.bytes, self.at), self.shape)
    }

    /// Returns how many trees its offsets lead to.
    pub fn count_below(&self) -> u8
        ensures value { result ≡ forest_count (tree_of self.now).below }
        ensures kinds { length (kinds_below (tree_of self.now).shape (tree_of self.now).rest) ≡ result }
    {
        count_links(self.shape, bytes_from(self.bytes, self.at))
    }

    /// Returns one of the trees that its offsets lead to.
    pub fn below(&self, i: u8) -> TableTree<'t>
        requires { i < forest_count (tree_of self.now).below }
        ensures tree { trees_after i (tree_of self.now).below
            ≡ with_tree (tree_of result) (trees_after (i + 1) (tree_of self.now).below) }
        ensures smaller { tree_size (tree_of result) < tree_size (tree_of self.now) }
    {
        let (place, kind) = link_at(self.bytes, self.shape, self.at, i);
        tree_from(self.bytes, self.count, place, kind, self.depth - 1)
    }

    /// Returns how many bytes are left of so many after its own, none where it has more.
    pub fn room_after(&self, room: u64) -> Option<u64>
        ensures { MatchOption result (room < tree_size (tree_of self.now))
            (λ left. left + tree_size (tree_of self.now) ≡ room) }
    {
        room_after(self.bytes, self.count, self.at, self.kind, self.depth, room)
    }
}
