//! The wanted codes of a command line: the ranges of its words and files, and the characters of its texts.
use crate::asked::glyph_numbers::EVERYTHING;
use crate::messages::command_error::{CommandError, no_memory};
use codes::{LAST_CODE, read_word};
use font_coverage::Kept;
use std::alloc::{AllocError, Global};
use std::io::Read;
use wanted_characters::{
    CodeSet, FileFault, FileKind, SequenceSet, add_listed, add_listed_sequences, add_text_of_file,
    read_sequence,
};

// Returns the codes of a word. The word for everything has all of them.
fn codes_of_word<'a>(word: &'a str) -> Result<(u32, u32), CommandError<'a>> {
    if word == EVERYTHING {
        return Ok((0, LAST_CODE));
    }
    read_word(word).map_err(|_| CommandError::BadWord(word))
}

// Adds the codes of a word, and the sequence for which it is a word.
fn add_word<'a>(
    alloc: Global,
    codes: &mut CodeSet,
    sequences: &mut SequenceSet,
    word: &'a str,
) -> Result<(), CommandError<'a>> {
    if let Some((code, selector)) = read_sequence(word) {
        codes.add(code)?;
        return Ok(sequences.add(alloc, code, selector)?);
    }
    let (first, last) = codes_of_word(word)?;
    Ok(codes.add_range(first, last)?)
}

/// Returns the codes of words, and adds the sequences for which there are words to a set.
///
/// # Errors
/// `BadWord` with the first word that names no range and no sequence, `Refused` if out of memory.
pub(crate) fn codes_of<'a>(
    alloc: Global,
    sequences: &mut SequenceSet,
    words: &[&'a str],
) -> Result<CodeSet, CommandError<'a>> {
    let mut codes = CodeSet::new(alloc);
    for &word in words {
        add_word(alloc, &mut codes, sequences, word)?;
    }
    Ok(codes)
}

fn add_text(codes: &mut CodeSet, text: &str) -> Result<(), AllocError> {
    for letter in text.chars() {
        codes.add(letter as u32)?;
    }
    Ok(())
}

/// Returns the codes of the characters of texts.
///
/// # Errors
/// `AllocError` if out of memory.
pub(crate) fn characters_of(alloc: Global, texts: &[&str]) -> Result<CodeSet, AllocError> {
    let mut codes = CodeSet::new(alloc);
    for &text in texts {
        add_text(&mut codes, text)?;
    }
    Ok(codes)
}

// Returns the error that a list has this word, or is not UTF-8: the one in a line, or one in a line of the file at a path.
fn bad_word<'a>(
    place: Option<(&'a str, u64)>,
    kind: FileKind,
    word: Option<String>,
) -> CommandError<'a> {
    match (kind, place) {
        (FileKind::Numbers, place) => CommandError::BadNumber { place, word },
        (_, Some((path, line))) => CommandError::BadLine { path, line, word },
        (_, None) => CommandError::BadListed { word },
    }
}

// Returns why a list is not read to its end: one of the line, or one in a line of the file at a path.
fn error_in<'a>(
    place: Option<(&'a str, u64)>,
    kind: FileKind,
    error: FileFault,
) -> CommandError<'a> {
    match error {
        FileFault::BadLine { word, .. } => bad_word(place, kind, word),
        _ => no_memory(),
    }
}

/// Adds the codes of a list, or the glyph numbers: the list is one of the line, or in a line of the file at a path.
///
/// # Errors
/// `BadListed`, `BadLine` or `BadNumber` with the first word that names no range, `Refused` if out of memory.
pub(crate) fn add_list<'a>(
    alloc: Global,
    codes: &mut CodeSet,
    list: &str,
    kind: FileKind,
    place: Option<(&'a str, u64)>,
) -> Result<(), CommandError<'a>> {
    match add_listed(alloc, &mut list.as_bytes(), kind, codes) {
        Ok(()) => Ok(()),
        Err(error) => Err(error_in(place, kind, error)),
    }
}

/// Adds the codes of a list, and the sequences for which it has words to a set: the list is one of the line, or in a line of
/// the file at a path.
///
/// # Errors
/// Those of `add_list`.
pub(crate) fn add_list_and_sequences<'a>(
    alloc: Global,
    codes: &mut CodeSet,
    sequences: &mut SequenceSet,
    list: &str,
    place: Option<(&'a str, u64)>,
) -> Result<(), CommandError<'a>> {
    match add_listed_sequences(
        alloc,
        &mut list.as_bytes(),
        FileKind::List,
        codes,
        sequences,
    ) {
        Ok(()) => Ok(()),
        Err(error) => Err(error_in(place, FileKind::List, error)),
    }
}

/// Adds the codes of lists of ranges, and the sequences for which they have words to a set.
///
/// # Errors
/// Those of `add_lists`.
pub(crate) fn add_lists_and_sequences<'a>(
    alloc: Global,
    codes: &mut CodeSet,
    sequences: &mut SequenceSet,
    lists: &[&'a str],
) -> Result<(), CommandError<'a>> {
    for &list in lists {
        add_list_and_sequences(alloc, codes, sequences, list, None)?;
    }
    Ok(())
}

/// Adds the codes of lists of ranges.
///
/// # Errors
/// `BadListed` with the first word that names no range, `Refused` if out of memory.
pub(crate) fn add_lists<'a>(
    alloc: Global,
    codes: &mut CodeSet,
    lists: &[&'a str],
) -> Result<(), CommandError<'a>> {
    for &list in lists {
        add_list(alloc, codes, list, FileKind::List, None)?;
    }
    Ok(())
}

// Returns why the file at a path, which lists this, is not read to its end.
fn error_at<'a>(path: &'a str, kind: FileKind, error: FileFault) -> CommandError<'a> {
    match error {
        FileFault::Unread => CommandError::Unread(path),
        FileFault::BadLine { line, word } => bad_word(Some((path, line)), kind, word),
        FileFault::NoMemory => no_memory(),
    }
}

// Adds the path of a file to those of files that name nothing, if it names none.
fn add_if_empty<'a>(
    empty: &mut Vec<&'a str>,
    path: &'a str,
    names_any: bool,
) -> Result<(), AllocError> {
    if !names_any {
        empty.push(path)?;
    }
    Ok(())
}

// Adds the codes that one file has named, and returns whether there are any.
fn add_own(alloc: Global, codes: &mut CodeSet, own: &CodeSet) -> Result<bool, FileFault> {
    match codes.add_all(alloc, own) {
        Ok(()) => Ok(!own.is_empty()),
        Err(_) => Err(FileFault::NoMemory),
    }
}

// Adds the codes that a file lists, or the glyph numbers, and returns whether there are any.
fn add_file<R: Read>(
    alloc: Global,
    file: &mut R,
    kind: FileKind,
    codes: &mut CodeSet,
) -> Result<bool, FileFault> {
    let mut own = CodeSet::new(alloc);
    add_listed(alloc, file, kind, &mut own)?;
    add_own(alloc, codes, &own)
}

/// Adds the codes that files list, whose paths these are, or the glyph numbers, and returns the paths of those that list
/// none.
///
/// # Errors
/// `Unread` with the first path whose file cannot be read, `BadLine` or `BadNumber` with the first line that is not as
/// it should be, `Refused` if out of memory.
pub(crate) fn add_files<'a, R: Read + Drop>(
    alloc: Global,
    files: Vec<R>,
    paths: &[&'a str],
    kind: FileKind,
    codes: &mut CodeSet,
) -> Result<Vec<&'a str>, CommandError<'a>> {
    let mut empty = Vec::new(alloc);
    for (mut file, &path) in files.into_iter().zip(paths) {
        match add_file(alloc, &mut file, kind, codes) {
            Ok(names_any) => add_if_empty(&mut empty, path, names_any)?,
            Err(error) => return Err(error_at(path, kind, error)),
        }
    }
    Ok(empty)
}

// Adds the characters of the text in a file, its sequences, and what the text needs where that is kept, and returns whether
// it has a character.
fn add_text_file<R: Read>(
    alloc: Global,
    file: &mut R,
    keeps_needed: bool,
    kept: &mut Kept,
) -> Result<bool, FileFault> {
    let mut own = CodeSet::new(alloc);
    let (added, sequences) = (&mut kept.added, &mut kept.sequences);
    add_text_of_file(alloc, file, keeps_needed, &mut own, added, sequences)?;
    add_own(alloc, &mut kept.texts, &own)
}

// Adds the codes and the sequences that a file of words lists, and returns whether there are any.
fn add_word_file<R: Read>(alloc: Global, file: &mut R, kept: &mut Kept) -> Result<bool, FileFault> {
    let mut own = CodeSet::new(alloc);
    add_listed_sequences(alloc, file, FileKind::Words, &mut own, &mut kept.listed)?;
    add_own(alloc, &mut kept.wanted, &own)
}

/// Adds the codes and the sequences that files of words list, whose paths these are. Returns the paths of those that list
/// none.
///
/// # Errors
/// Those of `add_files`.
pub(crate) fn add_word_files<'a, R: Read + Drop>(
    alloc: Global,
    files: Vec<R>,
    paths: &[&'a str],
    kept: &mut Kept,
) -> Result<Vec<&'a str>, CommandError<'a>> {
    let mut empty = Vec::new(alloc);
    for (mut file, &path) in files.into_iter().zip(paths) {
        match add_word_file(alloc, &mut file, kept) {
            Ok(names_any) => add_if_empty(&mut empty, path, names_any)?,
            Err(error) => return Err(error_at(path, FileKind::Words, error)),
        }
    }
    Ok(empty)
}

/// Adds the characters of the texts in files, whose paths these are, their sequences, and what the texts need where that is
/// kept. Returns the paths of those that have no character.
///
/// # Errors
/// Those of `add_files`.
pub(crate) fn add_text_files<'a, R: Read + Drop>(
    alloc: Global,
    files: Vec<R>,
    paths: &[&'a str],
    keeps_needed: bool,
    kept: &mut Kept,
) -> Result<Vec<&'a str>, CommandError<'a>> {
    let mut empty = Vec::new(alloc);
    for (mut file, &path) in files.into_iter().zip(paths) {
        match add_text_file(alloc, &mut file, keeps_needed, kept) {
            Ok(names_any) => add_if_empty(&mut empty, path, names_any)?,
            Err(error) => return Err(error_at(path, FileKind::Characters, error)),
        }
    }
    Ok(empty)
}
