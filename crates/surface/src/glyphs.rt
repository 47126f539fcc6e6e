//! The items of `font_glyph`.
ghost use Rattle.std.specs.Prelude.{◌≡◌, length};

use font_glyph::{Component, Components, GlyphFault, Marks, Outlines, check_record, close};
use sfnt_bytes::NoMemory;
use std::alloc::Global;

/// Judges a record of a font of this number of glyphs.
///
/// # Errors
/// The refusal of the record.
pub fn records(b: &[u8], glyphs: u16) -> Result<(), GlyphFault> {
    let judged: Result<(), GlyphFault> = check_record(b, glyphs);
    judged
}

/// Returns the number of the components of a record of a font of this number of glyphs.
///
/// # Errors
/// The refusal of the record.
pub fn parts(b: &[u8], glyphs: u16) -> Result<usize, GlyphFault> {
    check_record(b, glyphs)?;
    let components: Components<'_> = Components::of(b);
    Ok(components.count())
}

/// Returns the number of the glyph that a component names.
pub fn named(component: Component) -> (u16, u16) {
    (component.flags, component.glyph)
}

/// Returns the glyphs that others lead to.
///
/// # Errors
/// `NoMemory` if out of memory.
pub fn closure<O: Outlines>(alloc: Global, outlines: &O, g: u16) -> Result<bool, NoMemory> {
    let count: u16 = outlines.count();
    let mut seeds: Marks = Marks::new(alloc, count)?;
    if g < count {
        seeds.set(g);
        let reached: Marks = close(alloc, outlines, &seeds)?;
        let record: &[u8] = outlines.record_of(g);
        return Ok(reached.has(g) && record.is_empty());
    }
    Ok(false)
}
