//! The number of each error.
use font_cmd::{ReadError, RunError};
use font_cut::{
    CutError, CutIntoError, DirError, FontError, JoinAllError, JoinError, MapError, NoMemory,
    TableError, WantedError, WordError, WriteFault,
};
use font_glyph::GlyphFault;

/// Returns the numbers of the parts of a font that are refused.
pub fn numbers_of_parts(
    directory: &DirError,
    tables: &TableError,
    mapping: &MapError,
    record: &GlyphFault,
) -> [u8; 4] {
    [
        directory.number(),
        tables.number(),
        mapping.number(),
        record.number(),
    ]
}

/// Returns the numbers of a font, a set or a word that is refused.
pub fn numbers_of_fonts(font: &FontError, wanted: &WantedError, word: &WordError) -> [u8; 3] {
    [font.number(), wanted.number(), word.number()]
}

/// Returns the numbers of cuts that are not made.
pub fn numbers_of_cuts(memory: &NoMemory, cut: &CutError, sent: &CutIntoError) -> [u8; 3] {
    [memory.number(), cut.number(), sent.number()]
}

/// Returns the numbers of joins that are refused.
pub fn numbers_of_joins(pair: &JoinError, list: &JoinAllError) -> [u8; 2] {
    [pair.number(), list.number()]
}

/// Returns the numbers of runs that are not done.
pub fn numbers_of_runs(read: &ReadError, write: &WriteFault, run: &RunError) -> [u8; 3] {
    [read.number(), write.number(), run.number()]
}
