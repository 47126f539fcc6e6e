//! Files of slices: in each line the name of a slice and the list of its codes and glyph numbers. This project's own.
use crate::asked::words::{add_list, add_list_and_sequences};
use crate::messages::command_error::{CommandError, no_memory};
use sfnt_bytes::MAX_FILE;
use std::alloc::{AllocError, Global};
use std::collections::BTreeSet;
use std::io::Read;
use wanted_characters::{CodeSet, FileKind, SequenceSet};

// The most bytes of one read.
const PIECE: usize = 16 * 1024;

/// How many bytes a line of a file of slices may have.
pub(crate) const LONGEST_LINE: usize = 1_048_576;

// How many bytes a name may have: each file system takes a file of that name and `.ttf`.
const LONGEST_NAME: usize = 200;

// A byte order mark, which is no part of the first line.
const MARK: char = '\u{FEFF}';

// What a word of glyph numbers begins with.
const GLYPHS: &str = "gid";

/// A slice: the name of its file, but for `.ttf`, its codes, the glyphs that it keeps by their numbers, and its variation
/// sequences.
pub(crate) struct Slice<'t> {
    pub(crate) name: &'t str,
    pub(crate) codes: CodeSet,
    pub(crate) glyphs: CodeSet,
    pub(crate) sequences: SequenceSet,
}

impl Drop for Slice<'_> {
    fn drop(self) {
        let Slice {
            name: _,
            codes: _codes,
            glyphs: _glyphs,
            sequences: _sequences,
        } = self;
    }
}

impl<'t> Slice<'t> {
    /// Adds glyphs to those that it keeps by their numbers.
    ///
    /// # Errors
    /// `AllocError` if out of memory.
    pub(crate) fn add_glyphs(&mut self, numbers: &[u16]) -> Result<(), AllocError> {
        for &number in numbers {
            self.glyphs.add(u32::from(number))?;
        }
        Ok(())
    }

    /// Returns its name, its codes and its glyphs.
    pub(crate) fn into_parts(self) -> (&'t str, CodeSet, CodeSet) {
        let Slice {
            name,
            codes,
            glyphs,
            sequences: _sequences,
        } = self;
        (name, codes, glyphs)
    }
}

// Returns whether a name is one that a file can have in each folder and in a style sheet as it stands.
fn is_name(name: &str) -> bool {
    let begins = name
        .bytes()
        .next()
        .is_some_and(|byte| byte.is_ascii_alphanumeric());
    begins
        && name.len() <= LONGEST_NAME
        && name.bytes().all(|byte| byte.is_ascii_alphanumeric()
            || matches!(byte, b'-' | b'_' | b'.'))
}

// Returns the error that a line has this name.
fn bad_name<'a>(alloc: Global, path: &'a str, line: u64, name: &str) -> CommandError<'a> {
    match String::from_str(alloc, name) {
        Ok(name) => CommandError::BadName { path, line, name },
        Err(_) => no_memory(),
    }
}

// Returns the error that a line has the name of an earlier one.
fn name_twice<'a>(alloc: Global, path: &'a str, line: u64, name: &str) -> CommandError<'a> {
    match String::from_str(alloc, name) {
        Ok(name) => CommandError::NameTwice { path, line, name },
        Err(_) => no_memory(),
    }
}

// Tells whether a letter stands between the words of a list.
fn separates(letter: char) -> bool {
    matches!(letter, ' ' | '\t' | '\r' | ',' | ';')
}

// Adds the codes and glyphs of the list in a line. A list without glyphs is read at once, and else word by word.
fn add_slice_list<'a>(
    alloc: Global,
    path: &'a str,
    line: u64,
    list: &str,
    slice: &mut Slice<'_>,
) -> Result<(), CommandError<'a>> {
    let place = Some((path, line));
    let (codes, sequences) = (&mut slice.codes, &mut slice.sequences);
    if !list.contains(GLYPHS) {
        return add_list_and_sequences(alloc, codes, sequences, list, place);
    }
    for word in list.split(separates) {
        match word.strip_prefix(GLYPHS) {
            Some(numbers) if !numbers.is_empty() => {
                add_list(alloc, &mut slice.glyphs, numbers, FileKind::Numbers, place)?
            }
            _ => add_list_and_sequences(alloc, codes, sequences, word, place)?,
        }
    }
    Ok(())
}

// Returns the slice of a line, which has none where it is empty or a comment.
fn slice_of<'t, 'a>(
    alloc: Global,
    path: &'a str,
    line: u64,
    text: &'t str,
) -> Result<Option<Slice<'t>>, CommandError<'a>> {
    let text = match text.split_once('#') {
        Some((before, _comment)) => before.trim(),
        None => text.trim(),
    };
    if text.is_empty() {
        return Ok(None);
    }
    let (name, list) = text
        .split_once(|letter: char| letter.is_whitespace())
        .unwrap_or((text, ""));
    if !is_name(name) {
        return Err(bad_name(alloc, path, line, name));
    }
    let mut slice = Slice {
        name,
        codes: CodeSet::new(alloc),
        glyphs: CodeSet::new(alloc),
        sequences: SequenceSet::new(alloc),
    };
    add_slice_list(alloc, path, line, list, &mut slice)?;
    Ok(Some(slice))
}

// Returns the number of the line of a byte, counted from one.
fn line_of(bytes: &[u8], at: usize) -> u64 {
    let before = bytes.get(..at).unwrap_or(bytes);
    let ends = before.iter().filter(|byte| **byte == b'\n').count();
    (ends as u64).saturating_add(1)
}

// The lines of a file of slices so far.
#[derive(Drop)]
struct Lines {
    bytes: Vec<u8>,
    // The number of the last line, counted from one, and how many bytes it has.
    line: u64,
    length: usize,
}

impl Lines {
    // Counts the bytes of lines, and returns whether one is longer than a line may be.
    fn count(&mut self, piece: &[u8]) -> bool {
        for &byte in piece {
            if byte == b'\n' {
                self.line = self.line.saturating_add(1);
                self.length = 0;
            } else {
                self.length = self.length.saturating_add(1);
            }
            if LONGEST_LINE < self.length {
                return true;
            }
        }
        false
    }

    // Takes the next bytes of the file at a path.
    fn take<'a>(&mut self, path: &'a str, piece: &[u8]) -> Result<(), CommandError<'a>> {
        if self.count(piece) {
            let line = self.line;
            return Err(CommandError::LongLine { path, line });
        }
        self.bytes.extend_from_slice(piece)?;
        if MAX_FILE < self.bytes.len() as u64 {
            return Err(CommandError::LongFile(path));
        }
        Ok(())
    }
}

/// Reads the file of slices at a path to its end.
///
/// # Errors
/// `Unread` where a read fails, `LongLine` with the first line that is longer than a line may be, `LongFile` where the
/// file is longer than a file may be, `Refused` if out of memory.
pub(crate) fn read_lines<'a, R: Read>(
    alloc: Global,
    path: &'a str,
    file: &mut R,
) -> Result<Vec<u8>, CommandError<'a>> {
    let mut lines = Lines {
        bytes: Vec::new(alloc),
        line: 1,
        length: 0,
    };
    let mut piece = [0u8; PIECE];
    for _ in 0..u64::MAX {
        match file.read(&mut piece) {
            Ok(0) => break,
            Ok(count) => lines.take(path, &piece[..count])?,
            Err(_) => return Err(CommandError::Unread(path)),
        }
    }
    Ok(lines.bytes)
}

// Returns the text of the file at a path.
fn text_of<'t, 'a>(path: &'a str, bytes: &'t [u8]) -> Result<&'t str, CommandError<'a>> {
    match str::from_utf8(bytes) {
        Ok(text) => Ok(text),
        Err(error) => {
            let line = line_of(bytes, error.valid_up_to());
            Err(CommandError::BadLine {
                path,
                line,
                word: None,
            })
        }
    }
}

// The slices of a file so far, and their names.
#[derive(Drop)]
struct Slices<'t> {
    slices: Vec<Slice<'t>>,
    names: BTreeSet<&'t str>,
}

impl<'t> Slices<'t> {
    // Adds the name of the slice of a line.
    fn add_name<'a>(
        &mut self,
        alloc: Global,
        path: &'a str,
        number: u64,
        name: &'t str,
    ) -> Result<(), CommandError<'a>> {
        match self.names.insert(name) {
            Ok(true) => Ok(()),
            Ok(false) => Err(name_twice(alloc, path, number, name)),
            Err(_) => Err(no_memory()),
        }
    }

    // Adds the slice of a line of the file at a path, if the line has one.
    fn add_line<'a>(
        &mut self,
        alloc: Global,
        path: &'a str,
        number: u64,
        line: &'t str,
    ) -> Result<(), CommandError<'a>> {
        let Some(slice) = slice_of(alloc, path, number, line)? else {
            return Ok(());
        };
        self.add_name(alloc, path, number, slice.name)?;
        match self.slices.push(slice) {
            Ok(()) => Ok(()),
            Err(_) => Err(no_memory()),
        }
    }
}

/// Returns the slices of a file, whose path and bytes these are.
///
/// # Errors
/// `BadLine` with the first line that is not UTF-8 or has a word that names no range, `BadNumber` with the first one
/// that has a bad glyph number, `BadName` with the first one whose name is none, `NameTwice` with the first one whose
/// name an earlier one has, `Refused` if out of memory.
pub(crate) fn slices_of<'t, 'a>(
    alloc: Global,
    path: &'a str,
    bytes: &'t [u8],
) -> Result<Vec<Slice<'t>>, CommandError<'a>> {
    let text = text_of(path, bytes)?;
    let mut slices = Slices {
        slices: Vec::new(alloc),
        names: BTreeSet::new(alloc),
    };
    let mut number: u64 = 0;
    for line in text.strip_prefix(MARK).unwrap_or(text).lines() {
        number = number.saturating_add(1);
        slices.add_line(alloc, path, number, line)?;
    }
    Ok(slices.slices)
}
