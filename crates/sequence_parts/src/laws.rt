//! Laws of variation sequences as a divided table: the contract of each function is what it says.
ghost use Rattle.sequence_parts.specs.Laws.{ClashIsInTwoParts, FitWithoutClash, FontHasItsGlyphs, FontHasOwnParts, PartsAreTheTable, PartsOfOneTableFit, SequencesAreDivided, TableHasItsGlyphs, TwoPartsDoNotFit, WholeIsOfItsParts};
ghost use Rattle.sequence_parts.specs.SequenceCmap.{SequencesAreRead, SequencesChangeNoMap, TableIsReadBack};
ghost use Rattle.sequence_parts.specs.WorkedParts.{WorkedPartsAre};

/// Variation sequences are divided by glyph as each divided table is.
pub fn sequences_are_divided()
    ensures { SequencesAreDivided }
{}

/// In the table of a font the part of a glyph is its pairs, and the parts fit.
pub fn font_has_own_parts()
    ensures { FontHasOwnParts }
{}

/// The table of the parts of a font is the table of the font.
pub fn parts_are_the_table()
    ensures { PartsAreTheTable }
{}

/// The table of parts that fit is that of its own parts.
pub fn whole_is_of_its_parts()
    ensures { WholeIsOfItsParts }
{}

/// Parts from either of two families of one table fit, so no font has two parts that clash.
pub fn parts_of_one_table_fit()
    ensures { PartsOfOneTableFit }
{}

/// Parts of two families in which nothing clashes fit, unless there are too many pairs.
pub fn fit_without_clash()
    ensures { FitWithoutClash }
{}

/// The selector and code that a refusal names is in the parts of two glyphs.
pub fn clash_is_in_two_parts()
    ensures { ClashIsInTwoParts }
{}

/// Parts of two glyphs that have one selector and code do not fit.
pub fn two_parts_do_not_fit()
    ensures { TwoPartsDoNotFit }
{}

/// A table gives a selector and code what its mappings say, and its default entries nothing.
pub fn table_has_its_glyphs()
    ensures { TableHasItsGlyphs }
{}

/// The table of a font gives a selector and code the glyph that the font gives.
pub fn font_has_its_glyphs()
    ensures { FontHasItsGlyphs }
{}

/// A third encoding record of a `cmap` changes nothing of its map, whatever it leads to.
pub fn sequences_change_no_map()
    ensures { SequencesChangeNoMap }
{}

/// The subtable of sequences that is written into a `cmap` is the one that is read.
pub fn sequences_are_read()
    ensures { SequencesAreRead }
{}

/// The table of parts that fit is that of a font with the `cmap` that it is written into.
pub fn table_is_read_back()
    ensures { TableIsReadBack }
{}

/// What the parts of two glyphs come to, with one selector and code and with two codes.
pub fn worked_parts()
    ensures { WorkedPartsAre }
{}
