//! What is said of options and files that name no character and no glyph, as where a variable of a shell is empty.
use crate::asked::words::{add_list, add_list_and_sequences};
use crate::messages::command_error::CommandError;
use crate::paths::inputs::input_name;
use command_line::Subset;
use font_texts::Shown;
use std::alloc::{AllocError, Global};
use wanted_characters::{CodeSet, FileKind, SequenceSet};

// What is said of an empty text of the line.
const NO_TEXT: &str = "fontcut: --text is empty: it names no character\n";

// Returns what lists and files of a kind name.
fn named_by(kind: FileKind) -> &'static str {
    match kind {
        FileKind::Numbers => "glyph",
        _ => "character",
    }
}

// Returns whether a list of the line names nothing.
fn is_empty_list<'a>(
    alloc: Global,
    list: &'a str,
    kind: FileKind,
) -> Result<bool, CommandError<'a>> {
    let mut named = CodeSet::new(alloc);
    match kind {
        FileKind::Numbers => add_list(alloc, &mut named, list, kind, None)?,
        _ => {
            let mut sequences = SequenceSet::new(alloc);
            add_list_and_sequences(alloc, &mut named, &mut sequences, list, None)?
        }
    }
    Ok(named.is_empty())
}

// Adds a line for each list of an option that names nothing.
fn add_empty_lists<'a>(
    alloc: Global,
    said: &mut String,
    option: &str,
    lists: &[&'a str],
    kind: FileKind,
) -> Result<(), CommandError<'a>> {
    let named = named_by(kind);
    for &list in lists {
        if is_empty_list(alloc, list, kind)? {
            write!(said, "fontcut: {option} is empty: it names no {named}\n")?;
        }
    }
    Ok(())
}

/// Returns what is said of the texts and lists of a line that name nothing.
///
/// # Errors
/// Those of `add_list`.
pub(crate) fn said_of_options<'a>(
    alloc: Global,
    line: &Subset<'a>,
) -> Result<String, CommandError<'a>> {
    let mut said = String::new(alloc);
    for &text in &line.texts {
        if text.is_empty() {
            said.push_str(NO_TEXT)?;
        }
    }
    add_empty_lists(alloc, &mut said, "--unicodes", &line.lists, FileKind::List)?;
    add_empty_lists(
        alloc,
        &mut said,
        "--complete",
        &line.completed,
        FileKind::List,
    )?;
    add_empty_lists(
        alloc,
        &mut said,
        "--gids",
        &line.glyph_lists,
        FileKind::Numbers,
    )?;
    Ok(said)
}

/// Adds a line for each of the files at some paths, which are of a kind and name nothing.
///
/// # Errors
/// `AllocError` if out of memory.
pub(crate) fn add_empty_files(
    said: &mut String,
    paths: &[&str],
    kind: FileKind,
) -> Result<(), AllocError> {
    let named = named_by(kind);
    for &path in paths {
        let name = Shown(input_name(path));
        write!(said, "fontcut: {name} names no {named}\n")?;
    }
    Ok(())
}
