//! The tables of layout that a line drops from a font before it is cut.
use crate::messages::command_error::CommandError;
use crate::paths::inputs::font_in;
use commands::without_tables;
use font_coverage::is_of_layout;
use sfnt_bytes::Tag;
use std::alloc::{AllocError, Global};

// Returns the tag of a table of layout by its name.
fn tag_named(name: &str) -> Option<Tag> {
    let &[a, b, c, d] = name.as_bytes() else {
        return None;
    };
    Some(Tag([a, b, c, d])).filter(|tag| is_of_layout(*tag))
}

// Returns the tags of tables of layout by their names.
fn tags_named(alloc: Global, names: &[&str]) -> Result<Vec<Tag>, AllocError> {
    let mut tags = Vec::new(alloc);
    for tag in names.iter().filter_map(|name| tag_named(name)) {
        tags.push(tag)?;
    }
    Ok(tags)
}

/// Returns the file of the font at a path, which this is, without the tables of layout of some names.
///
/// # Errors
/// `RefusedFile` where the font is refused, `Refused` if out of memory.
pub(crate) fn without_named<'a>(
    alloc: Global,
    path: &'a str,
    file: Vec<u8>,
    names: &[&str],
) -> Result<Vec<u8>, CommandError<'a>> {
    if names.is_empty() {
        return Ok(file);
    }
    let font = font_in(path, &file)?;
    let tags = tags_named(alloc, names)?;
    Ok(without_tables(alloc, font.tables().directory(), &tags)?)
}
