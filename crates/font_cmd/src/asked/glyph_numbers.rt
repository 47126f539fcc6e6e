//! The glyphs that a line of `subset` or of a file of slices keeps by their numbers.
use crate::asked::words::add_list;
use crate::messages::command_error::CommandError;
use command_line::Subset;
use std::alloc::{AllocError, Global};
use wanted_characters::{CodeSet, FileKind};

/// The word for all codes and all glyphs.
pub(crate) const EVERYTHING: &str = "everything";

/// Returns whether a line keeps all glyphs.
pub(crate) fn keeps_all_glyphs(line: &Subset<'_>) -> bool {
    line.words.iter().any(|word| *word == EVERYTHING)
}

/// Returns whether a line keeps glyphs by their numbers, be there none in its lists.
pub(crate) fn names_glyphs(line: &Subset<'_>) -> bool {
    !line.glyph_lists.is_empty() || !line.glyph_files.is_empty() || keeps_all_glyphs(line)
}

/// Returns the numbers of the lists of a line.
///
/// # Errors
/// `BadNumber` with the first word that is no number and no range of numbers, `Refused` if out of memory.
pub(crate) fn listed_glyphs<'a>(
    alloc: Global,
    line: &Subset<'a>,
) -> Result<CodeSet, CommandError<'a>> {
    let mut glyphs = CodeSet::new(alloc);
    for &list in &line.glyph_lists {
        add_list(alloc, &mut glyphs, list, FileKind::Numbers, None)?;
    }
    Ok(glyphs)
}

/// Returns the first number of a set that is not below a count.
///
/// # Errors
/// `AllocError` if out of memory.
pub(crate) fn first_past(
    alloc: Global,
    count: u16,
    glyphs: &CodeSet,
) -> Result<Option<u16>, AllocError> {
    let count = u32::from(count);
    for (first, last) in glyphs.ranges(alloc)? {
        if count <= last {
            return Ok(u16::try_from(first.max(count)).ok());
        }
    }
    Ok(None)
}
