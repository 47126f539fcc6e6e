//! What an offset of a colour table leads to: its fields, and the offsets among them. OpenType 1.9, COLR, Paint
//! tables; ColorLine, VarColorLine; Affine2x3, VarAffine2x3; ClipBox.
ghost use Rattle.std.specs.Prelude.{◌≡◌, ◌+◌, ◌-◌, ◌<◌, ◌≤◌, ◌^◌, IfSome, None, drop, if◌then◌else◌, length, nat_eq, slice_get, slice_index};
ghost use Rattle.colour_tables.specs.Paints.{paint_shapes, place_from, rest_of, shape_of, shape_size};
ghost use Rattle.colour_tables.specs.PaintLists.{count_at, layer_places_of};
ghost use Rattle.colour_readers.specs.Trees.{box_shape, glyph_named, link_at, link_count, names_in, shape_at};

use crate::fields::{byte_at, bytes_from, u16_at, u24_at, u32_at};
use colour_tables::{Kind, Shape};

/// The paints by format, from 1 on.
const PAINTS: [Shape; 32] = [
    Shape::Layers, // 1 PaintColrLayers
    Shape::Plain(4), // 2 PaintSolid
    Shape::Plain(8), // 3 PaintVarSolid
    Shape::One(12, Kind::ColorLine(6)), // 4 PaintLinearGradient
    Shape::One(16, Kind::ColorLine(10)), // 5 PaintVarLinearGradient
    Shape::One(12, Kind::ColorLine(6)), // 6 PaintRadialGradient
    Shape::One(16, Kind::ColorLine(10)), // 7 PaintVarRadialGradient
    Shape::One(8, Kind::ColorLine(6)), // 8 PaintSweepGradient
    Shape::One(12, Kind::ColorLine(10)), // 9 PaintVarSweepGradient
    Shape::One(2, Kind::Paint), // 10 PaintGlyph
    Shape::Plain(2), // 11 PaintColrGlyph
    Shape::Two(0, Kind::Paint, Kind::Affine(23)), // 12 PaintTransform
    Shape::Two(0, Kind::Paint, Kind::Affine(27)), // 13 PaintVarTransform
    Shape::One(4, Kind::Paint), // 14 PaintTranslate
    Shape::One(8, Kind::Paint), // 15 PaintVarTranslate
    Shape::One(4, Kind::Paint), // 16 PaintScale
    Shape::One(8, Kind::Paint), // 17 PaintVarScale
    Shape::One(8, Kind::Paint), // 18 PaintScaleAroundCenter
    Shape::One(12, Kind::Paint), // 19 PaintVarScaleAroundCenter
    Shape::One(2, Kind::Paint), // 20 PaintScaleUniform
    Shape::One(6, Kind::Paint), // 21 PaintVarScaleUniform
    Shape::One(6, Kind::Paint), // 22 PaintScaleUniformAroundCenter
    Shape::One(10, Kind::Paint), // 23 PaintVarScaleUniformAroundCenter
    Shape::One(2, Kind::Paint), // 24 PaintRotate
    Shape::One(6, Kind::Paint), // 25 PaintVarRotate
    Shape::One(6, Kind::Paint), // 26 PaintRotateAroundCenter
    Shape::One(10, Kind::Paint), // 27 PaintVarRotateAroundCenter
    Shape::One(4, Kind::Paint), // 28 PaintSkew
    Shape::One(8, Kind::Paint), // 29 PaintVarSkew
    Shape::One(8, Kind::Paint), // 30 PaintSkewAroundCenter
    Shape::One(12, Kind::Paint), // 31 PaintVarSkewAroundCenter
    Shape::Two(1, Kind::Paint, Kind::Paint), // 32 PaintComposite
];

// Returns the shape of a paint of a format.
fn paint_shape(format: u8) -> Option<Shape>
    ensures value { result ≡ if nat_eq format 0 then None else slice_get paint_shapes (format - 1) }
    ensures small { IfSome result (λ s. shape_size s < 2 ^ 50) }
{
    if format == 0 || PAINTS.len() < usize::from(format) {
        return None;
    }
    Some(PAINTS[usize::from(format) - 1])
}

// Returns the shape of a clip box of a format.
fn box_shape(format: u8) -> Option<Shape>
    ensures value { result ≡ box_shape format }
    ensures small { IfSome result (λ s. shape_size s < 2 ^ 50) }
{
    if format == 1 {
        return Some(Shape::Plain(8));
    }
    if format == 2 {
        return Some(Shape::Plain(12));
    }
    None
}

// Returns the shape of what begins bytes and is of a kind, by its format or its count of stops.
fn shape_of(kind: Kind, b: &[u8]) -> Option<Shape>
    ensures value { result ≡ shape_of kind b.now }
    ensures small { IfSome result (λ s. shape_size s < 2 ^ 50) }
{
    match kind {
        Kind::Paint => paint_shape(byte_at(b, 0)),
        Kind::ColorLine(stop) => Some(Shape::Plain(2 + u64::from(stop) * u64::from(u16_at(b, 1)))),
        Kind::Affine(more) => Some(Shape::Plain(u64::from(more))),
        Kind::ClipBox => box_shape(byte_at(b, 0)),
    }
}

/// Returns how many bytes a shape has.
pub(crate) fn size_of(shape: Shape) -> u64
    requires { shape_size shape < 2 ^ 50 }
    ensures { result ≡ shape_size shape }
{
    match shape {
        Shape::Plain(more) => 1 + more,
        Shape::One(more, _) => 4 + u64::from(more),
        Shape::Two(more, _, _) => 7 + u64::from(more),
        Shape::Layers => 6,
    }
}

/// Returns the glyph that a paint names.
pub(crate) fn glyph_named(kind: Kind, b: &[u8]) -> Option<u16>
    ensures { result ≡ glyph_named kind b.now }
{
    match kind {
        Kind::Paint => {
            let format = byte_at(b, 0);
            if format == 10 {
                return Some(u16_at(b, 4));
            }
            if format == 11 {
                return Some(u16_at(b, 1));
            }
            None
        }
        _ => None,
    }
}

// Returns whether a paint names no glyph but one below another.
fn names_in(n: u16, kind: Kind, b: &[u8]) -> bool
    ensures { result ≡ names_in n kind b.now }
{
    match glyph_named(kind, b) {
        Some(glyph) => glyph < n,
        None => true,
    }
}

/// Returns the shape of what is of a kind at a place of a table, if its bytes are all there.
pub(crate) fn shape_at(t: &[u8], n: u16, at: usize, kind: Kind) -> Option<Shape>
    ensures value { result ≡ shape_at n t.now at kind }
    ensures small { IfSome result (λ s. shape_size s < 2 ^ 50) }
    ensures within { IfSome result (λ s. at < length t.now) }
    ensures there { IfSome result (λ s. shape_size s ≤ length (drop at t.now)) }
{
    let b = bytes_from(t, at);
    let shape = shape_of(kind, b)?;
    if at == 0 || (b.len() as u64) < size_of(shape) || !names_in(n, kind, b) {
        return None;
    }
    Some(shape)
}

/// Returns the place that an offset leads to from another, and 0 for the offset 0.
pub(crate) fn place_from(at: usize, offset: u32) -> usize
    requires { at < 2 ^ 63 }
    ensures { result ≡ place_from at offset }
{
    if offset == 0 { 0 } else { at + offset as usize }
}

/// Returns the count of a list that has so many bytes before it, and 0 where there is no list.
pub(crate) fn count_at(t: &[u8], offset: u32, before: usize) -> u32
    requires { before < 2 }
    ensures { result ≡ count_at t.now offset before }
{
    if offset == 0 {
        return 0;
    }
    u32_at(t, offset as usize + before)
}

// Returns the place of a layer, and 0 where there is none.
fn layer_place(t: &[u8], i: usize) -> usize
    requires { i < 2 ^ 33 }
    ensures { result ≡ slice_index (layer_places_of t.now) i }
{
    let list = u32_at(t, 18);
    if count_at(t, list, 0) as usize <= i {
        return 0;
    }
    let at = list as usize;
    let offset = u32_at(t, at + 4 + 4 * i);
    place_from(at, offset)
}

/// Returns how many offsets there are.
pub(crate) fn count_links(shape: Shape, b: &[u8]) -> u8
    ensures { result ≡ link_count shape b.now }
{
    match shape {
        Shape::Plain(_) => 0,
        Shape::One(_, _) => 1,
        Shape::Two(_, _, _) => 2,
        Shape::Layers => byte_at(b, 1),
    }
}

/// Returns the place that an offset leads to, and what is there.
pub(crate) fn link_at(t: &[u8], shape: Shape, at: usize, i: u8) -> (usize, Kind)
    requires { at < length t.now }
    ensures { result ≡ link_at (layer_places_of t.now) shape at (drop at t.now) i }
{
    let b = bytes_from(t, at);
    match shape {
        Shape::Plain(_) => (0, Kind::Paint),
        Shape::One(_, kind) => (place_from(at, u24_at(b, 1)), kind),
        Shape::Two(more, first, second) => {
            if i == 0 {
                (place_from(at, u24_at(b, 1)), first)
            } else {
                (place_from(at, u24_at(b, 4 + more as usize)), second)
            }
        }
        Shape::Layers => (
            layer_place(t, u32_at(b, 2) as usize + usize::from(i)),
            Kind::Paint,
        ),
    }
}

/// Returns the bytes of a shape but for the first and for offsets.
pub(crate) fn rest_of(b: &[u8], shape: Shape) -> &[u8]
    requires { shape_size shape ≤ length b.now }
    ensures { result.now ≡ rest_of shape b.now }
{
    match shape {
        Shape::Plain(more) => &b[1..1 + more as usize],
        Shape::One(more, _) => &b[4..4 + more as usize],
        Shape::Two(more, _, _) => &b[4..4 + more as usize],
        Shape::Layers => &b[1..2],
    }
}
