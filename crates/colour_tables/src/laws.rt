//! Laws of colour tables: the contract of each function is what it says.
ghost use Rattle.colour_tables.specs.Laws.{LayersAreReadBack, PaintsAreReadBack, WrittenAreBytes};

/// The layers of glyphs that are written are read back.
pub fn layers_are_read_back()
    ensures { LayersAreReadBack }
{}

/// The layers, paints and clip boxes of glyphs that are written are read back.
pub fn paints_are_read_back()
    ensures { PaintsAreReadBack }
{}

/// What has room in a table is written as bytes.
pub fn written_are_bytes()
    ensures { WrittenAreBytes }
{}
