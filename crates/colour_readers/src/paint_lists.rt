//! The lists of a colour table of version 1. OpenType 1.9, COLR, Header; BaseGlyphList, LayerList and ClipList tables.
ghost use Rattle.std.specs.Prelude.{◌≡◌, ◌∷◌, IfSome, ◌+◌, ◌*◌, ◌<◌, ◌≤◌, drop, nat_eq, ◌&&◌, ◌||◌, slice_index, true};
ghost use Rattle.sfnt_bytes.specs.Number.{u32_at};
ghost use Rattle.colour_tables.specs.LayerLists.{has_layer_lists};
ghost use Rattle.colour_tables.specs.PaintLists.{clip_list_offset, clips_of, count_at, has_list, layer_list_offset, base_list_offset, roots_of, tree_in, tree_size};
ghost use Rattle.colour_tables.specs.declared.shape.Kind.TheVariants.{ClipBox, Paint};
ghost use Rattle.colour_tables.specs.PaintLists.{is_paint_table};
ghost use Rattle.colour_readers.specs.Rooms.{clips_left, has_colours, has_lists, has_room, is_clip, is_root, roots_left};
ghost use Rattle.colour_readers.specs.Trees.{room_left};

use crate::fields::{byte_at, u16_at, u24_at, u32_at};
use crate::layer_lists::{has_layer_lists, layers_left};
use crate::paint_trees::tree_left;
use crate::shapes::{count_at, place_from};
use colour_tables::Kind;

/// How many bytes a table of version 1 has before its lists.
const HEADER: usize = 34;

/// How many bytes what is said of all glyphs has at most.
const BYTES: u64 = 16_777_215;

/// How many bytes a BaseGlyphPaintRecord has.
const ROOT: usize = 6;

/// How many bytes an offset of the LayerList has.
const OFFSET: usize = 4;

/// How many bytes a Clip has.
const CLIP: usize = 7;

/// A base glyph, and the place of its paint.
#[derive(Clone, Copy, Debug, PartialEq, Eq)]
pub(crate) struct Root {
    pub(crate) glyph: u16,
    pub(crate) place: usize,
}

/// The glyphs of a clip, and the place of its box.
#[derive(Clone, Copy, Debug, PartialEq, Eq)]
pub(crate) struct Span {
    pub(crate) first: u16,
    pub(crate) last: u16,
    pub(crate) place: usize,
}

// Returns whether the records of a list lie within a table.
fn has_list(t: &[u8], offset: u32, before: usize, size: usize) -> bool
    requires before { before < 2 }
    requires size { size < 8 }
    ensures { result ≡ has_list t.now offset before size }
{
    offset == 0
        || offset as usize + (before + 4) + size * count_at(t, offset, before) as usize <= t.len()
}

// Returns whether the lists of a table lie within it, and the ClipList has format 1.
#[tactic(auto, unfolding(colour_tables::specs::PaintLists::base_list_offset, colour_tables::specs::PaintLists::layer_list_offset, colour_tables::specs::PaintLists::clip_list_offset))]
fn has_lists(t: &[u8]) -> bool
    ensures { result ≡ has_lists t.now }
{
    let clips = u32_at(t, 22);
    has_list(t, u32_at(t, 14), 0, ROOT)
        && has_list(t, u32_at(t, 18), 0, OFFSET)
        && has_list(t, clips, 1, CLIP)
        && (clips == 0 || byte_at(t, clips as usize) == 1)
}

/// Returns a base glyph.
pub(crate) fn root_at(t: &[u8], i: u32) -> Root
    requires { i < count_at t.now (u32_at t.now 14) 0 }
    ensures { drop i (roots_of t.now) ≡ (result.glyph, result.place) ∷ drop (i + 1) (roots_of t.now) }
{
    let list = u32_at(t, 14);
    let at = list as usize + 4 + ROOT * i as usize;
    let glyph = u16_at(t, at);
    let offset = u32_at(t, at + 2);
    let place = place_from(list as usize, offset);
    Root { glyph, place }
}

/// Returns a clip.
pub(crate) fn clip_at(t: &[u8], i: u32) -> Span
    requires { i < count_at t.now (u32_at t.now 22) 1 }
    ensures { drop i (clips_of t.now)
        ≡ record { first = result.first; last = result.last; place = result.place } ∷ drop (i + 1) (clips_of t.now) }
{
    let list = u32_at(t, 22);
    let at = list as usize + 5 + CLIP * i as usize;
    let first = u16_at(t, at);
    let last = u16_at(t, at + 2);
    let offset = u24_at(t, at + 4);
    let place = place_from(list as usize, offset);
    Span { first, last, place }
}

// Returns whether a base glyph is not below one, and below another.
fn is_root(root: Root, from: u32, n: u16) -> bool
    ensures { result ≡ is_root n from root.glyph }
{
    from <= u32::from(root.glyph) && root.glyph < n
}

// Returns how many bytes are left of so many after the paints of base glyphs, none where these are not in order, or a
// paint is not read or has no room.
fn roots_left(t: &[u8], n: u16, room: u64) -> Option<u64>
    ensures value { result ≡ roots_left n t.now room 0 (roots_of t.now) }
    ensures most { IfSome result (λ left. left ≤ room) }
{
    let mut left = room;
    let mut from = 0;
    let count = count_at(t, u32_at(t, 14), 0);
    for i in 0..count {
        let root = root_at(t, i);
        if !is_root(root, from, n) {
            return None;
        }
        left = tree_left(t, n, root.place, Kind::Paint, left)?;
        from = u32::from(root.glyph) + 1;
    }
    Some(left)
}

// Returns how many bytes are left of so many after the clip box of so many glyphs.
fn box_left(t: &[u8], n: u16, place: usize, count: u32, room: u64) -> Option<u64>
    requires count { 0 < count }
    requires few { count ≤ 65536 }
    requires room { room ≤ 16777215 }
    ensures { result ≡ room_left (λ box. count * tree_size box) room (tree_in n t.now ClipBox place) }
{
    let left = tree_left(t, n, place, Kind::ClipBox, room)?;
    let others = u64::from(count - 1) * (room - left);
    left.checked_sub(others)
}

// Returns whether a clip is of glyphs not below one, and below another.
fn is_clip(clip: Span, from: u32, n: u16) -> bool
    ensures { result ≡ is_clip n from clip.first clip.last }
{
    from <= u32::from(clip.first) && clip.first <= clip.last && clip.last < n
}

// Returns how many bytes are left of so many after the boxes of clips, none where these are not in order, or a box is
// not read or has no room.
fn clips_left(t: &[u8], n: u16, room: u64) -> Option<u64>
    requires { room ≤ 16777215 }
    ensures { result ≡ clips_left n t.now room 0 (clips_of t.now) }
{
    let mut left = room;
    let mut from = 0;
    let count = count_at(t, u32_at(t, 22), 1);
    for i in 0..count {
        let clip = clip_at(t, i);
        if !is_clip(clip, from, n) {
            return None;
        }
        let glyphs = u32::from(clip.last) + 1 - u32::from(clip.first);
        left = box_left(t, n, clip.place, glyphs, left)?;
        from = u32::from(clip.last) + 1;
    }
    Some(left)
}

// Returns whether what a table says of glyphs is in order, is read, and has room.
fn has_room(t: &[u8], n: u16) -> bool
    ensures { result ≡ has_room n t.now }
{
    let Some(layers) = layers_left(t, n) else {
        return false;
    };
    let room = BYTES - 4 * u64::from(65535 - layers);
    match roots_left(t, n, room) {
        Some(left) => clips_left(t, n, left).is_some(),
        None => false,
    }
}

// Returns whether a table has all that is asked of one of version 1.
fn has_colours(t: &[u8], n: u16) -> bool
    ensures { result ≡ has_colours n t.now }
{
    HEADER <= t.len()
        && u16_at(t, 0) == 1
        && has_layer_lists(t, n)
        && has_lists(t)
        && has_room(t, n)
}

/// Returns whether a table is of version 1, and divided.
pub fn is_paint_table(t: &[u8], n: u16) -> bool
    ensures { result ≡ is_paint_table n t.now }
{
    has_colours(t, n)
}
