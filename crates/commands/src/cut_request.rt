//! What is asked of a font.
use codes::Wanted;
use font_theory::Kind;
use std::alloc::{Allocator, Global};

/// What is asked of a font: its cut of a kind for codes and for glyphs.
#[derive(Clone, Copy, Drop)]
pub struct CutRequest<'a, A: Allocator = Global> {
    /// The kind of cut.
    pub kind: Kind,
    /// Whether the cut also has each glyph that links of `GSUB` lead to from what is wanted, whatever the order of the
    /// text and its features. It counts for layout and variable cuts alone. A shaper may first replace characters, as
    /// U+65 U+301 by U+E9: the codes have to include those that the text needs.
    pub closes: bool,
    /// The wanted codes.
    pub codes: &'a Wanted<A>,
    /// The wanted glyphs by number, or all glyphs where no list is given.
    pub glyphs: Option<&'a [u16]>,
}
