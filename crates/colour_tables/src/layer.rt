//! Records of colour tables of version 0. OpenType 1.9, COLR, BaseGlyph and Layer records.

/// A layer of a glyph in colours.
#[derive(Clone, Copy, Debug, PartialEq, Eq)]
pub struct Layer {
    /// glyphID
    pub glyph: u16,
    /// paletteIndex
    pub palette_entry: u16,
}

/// A glyph in colours, and where its layers stand in the list of all.
#[derive(Clone, Copy, Debug, PartialEq, Eq)]
pub struct Base {
    /// glyphID
    pub glyph: u16,
    /// firstLayerIndex
    pub first: u16,
    /// numLayers
    pub count: u16,
}
