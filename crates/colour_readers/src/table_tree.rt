//! A tree that a table has. OpenType 1.9, COLR, Paint tables.
ghost use Rattle.std.specs.Prelude.{◌≡◌, ◌<◌, ◌≤◌, ◌^◌, Some, drop, is_some, length, true};
ghost use Rattle.colour_tables.specs.PaintLists.{layer_places_of};
ghost use Rattle.colour_tables.specs.Paints.{shape_size, tree_at};
ghost use Rattle.colour_readers.specs.Trees.{shape_at};

use colour_tables::{Kind, Shape};

/// A tree that a table has.
#[derive(Clone, Copy)]
pub struct TableTree<'t> {
    pub(crate) bytes: &'t [u8],
    pub(crate) count: u16,
    pub(crate) at: usize,
    pub(crate) kind: Kind,
    pub(crate) depth: u8,
    pub(crate) shape: Shape,
    ghost some: { is_some (tree_at count bytes.now (layer_places_of bytes.now) depth at kind) ≡ true },
    ghost shape_is: { Some shape ≡ shape_at count bytes.now at kind },
    ghost small: { shape_size shape < 2 ^ 50 },
    ghost within: { at < length bytes.now },
    ghost all: { shape_size shape ≤ length (drop at bytes.now) },
}
