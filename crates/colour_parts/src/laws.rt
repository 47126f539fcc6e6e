//! Laws of colour tables as divided tables: the contract of each function is what it says.
ghost use Rattle.colour_parts.specs.Laws.{ColourTablesAreDivided, LayerTablesAreDivided, PaintTablesAreDivided};
ghost use Rattle.colour_parts.specs.Telling.{CutsSay, NamesAreGlyphs, NamesOnCuts, PartsOfOneTableFit, PartsTell};
ghost use Rattle.colour_parts.specs.Telling.{StillOfVarying, WholesAreBytes, WholesAreMade};
ghost use Rattle.colour_parts.specs.WorkedColours.{WorkedColoursAre};

/// A colour table of version 0 is divided by glyph as each divided table is.
pub fn layer_tables_are_divided()
    ensures { LayerTablesAreDivided }
{}

/// A colour table of version 1 is divided by glyph as each divided table is.
pub fn paint_tables_are_divided()
    ensures { PaintTablesAreDivided }
{}

/// Colour tables of both versions are divided by glyph as each divided table is.
pub fn colour_tables_are_divided()
    ensures { ColourTablesAreDivided }
{}

/// A cut says of the glyphs that it keeps what the font says, and nothing of others.
pub fn cuts_say()
    ensures { CutsSay }
{}

/// Two tables say the same of a glyph if they have one part of it.
pub fn parts_tell()
    ensures { PartsTell }
{}

/// Parts of one table fit its frame.
pub fn parts_of_one_table_fit()
    ensures { PartsOfOneTableFit }
{}

/// The glyphs that colours name are glyphs of the font.
pub fn names_are_glyphs()
    ensures { NamesAreGlyphs }
{}

/// The table of parts that are bytes, and fit, is bytes: no number of it is too large for its field.
pub fn wholes_are_bytes()
    ensures { WholesAreBytes }
{}

/// Tables with what varies and without it have the same parts, and the frame without it is one of the frame with it.
pub fn still_of_varying()
    ensures { StillOfVarying }
{}

/// The table of parts that come of tables is made of what these tables say.
pub fn wholes_are_made()
    ensures { WholesAreMade }
{}

/// A kept glyph names in a cut the glyphs that it names in the font.
pub fn names_on_cuts()
    ensures { NamesOnCuts }
{}

/// What three small tables that fontTools wrote are divided into.
pub fn worked_colours()
    ensures { WorkedColoursAre }
{}
