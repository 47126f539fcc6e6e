//! The trees of a colour table of version 1. OpenType 1.9, COLR, Paint tables.
ghost use Rattle.std.specs.Prelude.{◌≡◌, ◌+◌, IfSome, None, Some, ◌<◌, ◌≤◌, drop, is_some, length, take, true, IsFalse, IsTrue};
ghost use Rattle.colour_tables.specs.PaintLists.{layer_places_of, tree_in, tree_size};
ghost use Rattle.colour_tables.specs.Paints.{shape_size, tree_at};
ghost use Rattle.colour_tables.specs.declared.shape.Shape.{Shape as AnyShape};
ghost use Rattle.colour_readers.specs.Trees.{HasSameFields, IsSameShape, room_left};

use crate::fields::{byte_at, bytes_from};
use crate::shapes::{count_links, link_at, shape_at, size_of};
use colour_tables::{Kind, Shape};

/// How deep trees are nested at most.
pub(crate) const DEPTH: u8 = 64;

/// Returns how many bytes are left of so many after those of a tree that is nested so deep at most, none where there is
/// no tree, or no room for it.
pub(crate) fn room_after(
    t: &[u8],
    n: u16,
    at: usize,
    kind: Kind,
    depth: u8,
    room: u64,
) -> Option<u64>
    ensures { result ≡ room_left tree_size room (tree_at n t.now (layer_places_of t.now) depth at kind) }
{
    if depth == 0 {
        return None;
    }
    let shape = shape_at(t, n, at, kind)?;
    let mut left = room.checked_sub(size_of(shape))?;
    for i in 0..count_links(shape, bytes_from(t, at)) {
        let (place, below) = link_at(t, shape, at, i);
        left = room_after(t, n, place, below, depth - 1, left)?;
    }
    Some(left)
}

/// Returns how many bytes are left of so many after those of a tree, none where there is no tree, or no room for it.
/// Layers may lead back to what they are of, so that a tree has more bytes than a table: this ends where there is no
/// room.
#[tactic(auto, unfolding(colour_tables::specs::PaintLists::tree_in, colour_tables::specs::Paints::MAX_DEPTH))]
pub(crate) fn tree_left(t: &[u8], n: u16, at: usize, kind: Kind, room: u64) -> Option<u64>
    ensures { result ≡ room_left tree_size room (tree_in n t.now kind at) }
{
    room_after(t, n, at, kind, DEPTH, room)
}

// Returns whether bytes are the same from a place on, so many of them.
fn is_same_from(b: &[u8], c: &[u8], at: usize, count: usize) -> bool
    requires first { at + count ≤ length b.now }
    requires second { at + count ≤ length c.now }
    requires place { at < 5 }
    ensures same { IsTrue result → take count (drop at b.now) ≡ take count (drop at c.now) }
    ensures other { IsFalse result → take count (drop at b.now) ≡ take count (drop at c.now) → ⊥ }
{
    b[at..at + count] == c[at..at + count]
}

// Returns whether two parts of a shape have the same bytes but for their offsets.
fn has_same_fields(shape: Shape, b: &[u8], c: &[u8]) -> bool
    requires first { shape_size shape ≤ length b.now }
    requires second { shape_size shape ≤ length c.now }
    ensures same { IsTrue result → HasSameFields shape b.now c.now }
    ensures other { IsFalse result → HasSameFields shape b.now c.now → ⊥ }
{
    if byte_at(b, 0) != byte_at(c, 0) {
        return false;
    }
    match shape {
        Shape::Plain(more) => is_same_from(b, c, 1, more as usize),
        Shape::One(more, _) => is_same_from(b, c, 4, more as usize),
        Shape::Two(more, _, _) => is_same_from(b, c, 4, more as usize),
        Shape::Layers => is_same_from(b, c, 1, 1),
    }
}

// Returns the shape of what is at a place of two tables, if both have the same shape and the same bytes there.
fn same_shape(t: &[u8], u: &[u8], n: u16, at: usize, other: usize, kind: Kind) -> Option<Shape>
    ensures same { IfSome result (λ s. IsSameShape n t.now u.now at other kind s) }
    ensures other { result ≡ None → (s : AnyShape) → IsSameShape n t.now u.now at other kind s → ⊥ }
    ensures within { IfSome result (λ s. at < length t.now) }
    ensures within_other { IfSome result (λ s. other < length u.now) }
{
    let shape = shape_at(t, n, at, kind)?;
    let second = shape_at(u, n, other, kind)?;
    let b = bytes_from(t, at);
    let c = bytes_from(u, other);
    if shape != second {
        return None;
    }
    if !has_same_fields(shape, b, c) {
        return None;
    }
    Some(shape)
}

// Returns whether two trees that are nested so deep at most are the same.
fn is_same_below(t: &[u8], u: &[u8], n: u16, at: usize, other: usize, kind: Kind, depth: u8) -> bool
    requires first { is_some (tree_at n t.now (layer_places_of t.now) depth at kind) ≡ true }
    requires second { is_some (tree_at n u.now (layer_places_of u.now) depth other kind) ≡ true }
    ensures same { IsTrue result → tree_at n t.now (layer_places_of t.now) depth at kind
        ≡ tree_at n u.now (layer_places_of u.now) depth other kind }
    ensures other { IsFalse result → tree_at n t.now (layer_places_of t.now) depth at kind
        ≡ tree_at n u.now (layer_places_of u.now) depth other kind → ⊥ }
{
    if depth == 0 {
        return true;
    }
    let Some(shape) = same_shape(t, u, n, at, other, kind) else {
        return false;
    };
    for i in 0..count_links(shape, bytes_from(t, at)) {
        let (place, below) = link_at(t, shape, at, i);
        let (other_place, _) = link_at(u, shape, other, i);
        if !is_same_below(t, u, n, place, other_place, below, depth - 1) {
            return false;
        }
    }
    true
}

/// Returns whether two trees are the same.
#[tactic(auto, unfolding(colour_tables::specs::PaintLists::tree_in, colour_tables::specs::Paints::MAX_DEPTH))]
pub(crate) fn is_same_tree(t: &[u8], u: &[u8], n: u16, at: usize, other: usize, kind: Kind) -> bool
    requires first { is_some (tree_in n t.now kind at) ≡ true }
    requires second { is_some (tree_in n u.now kind other) ≡ true }
    ensures same { IsTrue result → tree_in n t.now kind at ≡ tree_in n u.now kind other }
    ensures other { IsFalse result → tree_in n t.now kind at ≡ tree_in n u.now kind other → ⊥ }
{
    is_same_below(t, u, n, at, other, kind, DEPTH)
}
