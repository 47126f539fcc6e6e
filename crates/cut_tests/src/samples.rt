//! Sets, cuts and copies that the tests make.
use font_cut::{Font, Source, Wanted, WantedError, cut};
use std::alloc::{AllocError, Allocator, Global};
use std::test::Fail;

/// Returns a set of the codes in these ranges.
pub fn wanted_of<A: Allocator + Copy>(
    alloc: A,
    ranges: &[(u32, u32)],
) -> Result<Wanted<A>, WantedError> {
    let mut wanted = Wanted::new(alloc);
    for (first, last) in ranges {
        wanted.add(*first, *last)?;
    }
    Ok(wanted)
}

/// Returns the cut of a file for the codes in these ranges.
pub fn cut_of(alloc: Global, file: &[u8], ranges: &[(u32, u32)]) -> Result<Vec<u8>, Fail> {
    let font = Font::open(file)?;
    let wanted = wanted_of(alloc, ranges)?;
    let made = cut(alloc, &font, &wanted)?;
    Ok(made)
}

/// Returns the kept glyphs of a source, in order.
pub fn kept_of<S: Source>(alloc: Global, source: &S) -> Result<Vec<u16>, AllocError> {
    let mut glyphs = Vec::new(alloc);
    for g in 0..source.glyph_count() {
        if source.keeps(g) {
            glyphs.push(g)?;
        }
    }
    Ok(glyphs)
}

/// Copies files into the memory of an allocator. Each has one request of its own.
pub fn copies<A: Allocator + Copy>(
    alloc: Global,
    memory: A,
    files: &[&[u8]],
) -> Result<Vec<Vec<u8, A>>, AllocError> {
    let mut copied = Vec::new(alloc);
    for file in files {
        copied.push(file.to_vec(memory)?)?;
    }
    Ok(copied)
}
