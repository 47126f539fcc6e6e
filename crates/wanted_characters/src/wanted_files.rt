//! Files of wanted characters, and of words that name ranges of wanted codes. They are read in pieces.
use crate::code_set::CodeSet;
use crate::glyph_columns::{GlyphColumns, Named};
use crate::listed_number::read_numbers;
use crate::listed_word::{read_listed, read_sequence};
use crate::sequence_set::{SequenceSet, TextSequences};
use crate::text_needs::TextNeeds;
use crate::utf8::Utf8;
use codes::read_word;
use std::alloc::{AllocError, Global};
use std::io::Read;

// The most bytes of one read.
const PIECE: usize = 16 * 1024;

// The longest word that is held. A word of a list has at most 17 letters.
const LONGEST: usize = 64;

// The bytes that stand between words, each as the bit of its number: tab, line feed, carriage return, blank, `#`, `,`
// and `;`.
const BETWEEN: u64 = 1 << 9 | 1 << 10 | 1 << 13 | 1 << 32 | 1 << 35 | 1 << 44 | 1 << 59;

// What stands before the ranges in a style sheet.
const DESCRIPTOR: &str = "unicode-range";

// A byte order mark, which is no character where a file begins with it.
const MARK: char = '\u{FEFF}';

/// What a file lists.
#[derive(Clone, Copy, Debug, PartialEq, Eq)]
pub enum FileKind {
    /// Characters. Control characters, line ends among them, are none of them.
    Characters,
    /// Words of lists, with blanks, line ends, commas or semicolons between them, so that a `unicode-range` of
    /// a style sheet can stand there. What follows `#` in a line is a comment.
    List,
    /// The same, and lines that `codes --glyphs` prints, each of which names its code.
    Words,
    /// Words of lists of glyph numbers, with the same between them and the same comments.
    Numbers,
}

/// Why a file is not read to its end.
#[derive(Drop)]
pub enum FileFault {
    /// A read failed.
    Unread,
    /// A line is not UTF-8, or has this word, which names no range.
    BadLine { line: u64, word: Option<String> },
    /// Out of memory.
    NoMemory,
}

impl From<AllocError> for FileFault {
    fn from(_: AllocError) -> FileFault {
        FileFault::NoMemory
    }
}

// What is known of a file between two bytes.
#[derive(Drop)]
struct Reading<'a> {
    alloc: Global,
    kind: FileKind,
    codes: &'a mut CodeSet,
    // What the text needs, where that is wanted.
    needs: Option<TextNeeds>,
    // The variation sequences of the text or the list, where they are wanted.
    sequences: Option<TextSequences>,
    utf8: Utf8,
    line: u64,
    // Whether no character has come.
    is_new: bool,
    is_comment: bool,
    // The word so far. It has room for the longest one.
    word: String,
    columns: GlyphColumns,
}

// Returns whether a byte of a file of words stands between words.
fn parts_words(byte: u8) -> bool {
    // This has no branch, since whether a digit or a letter comes next cannot be predicted.
    (byte < 64) & (BETWEEN >> u32::from(byte % 64) & 1 == 1)
}

impl<'a> Reading<'a> {
    fn new(
        alloc: Global,
        kind: FileKind,
        codes: &'a mut CodeSet,
        needs: Option<TextNeeds>,
        sequences: Option<TextSequences>,
    ) -> Result<Reading<'a>, AllocError> {
        Ok(Reading {
            alloc,
            kind,
            codes,
            needs,
            sequences,
            utf8: Utf8::new(),
            line: 1,
            is_new: true,
            is_comment: false,
            word: String::with_capacity(alloc, LONGEST)?,
            columns: GlyphColumns::new(kind == FileKind::Words),
        })
    }

    // Returns the error that the line which is read is wrong.
    fn bad_line(&self, word: Option<String>) -> FileFault {
        FileFault::BadLine {
            line: self.line,
            word,
        }
    }

    // Returns the error that the word which was read is wrong.
    fn bad_word(&self) -> FileFault {
        match String::from_str(self.alloc, self.word.as_str()) {
            Ok(word) => self.bad_line(Some(word)),
            Err(_) => FileFault::NoMemory,
        }
    }

    // Adds codes that words name.
    fn add_named(&mut self, named: Named) -> Result<(), AllocError> {
        for (first, last) in named.into_iter().flatten() {
            self.codes.add_range(first, last)?;
        }
        Ok(())
    }

    // Returns the range that the word which was read names.
    fn named(&self) -> Option<(u32, u32)> {
        match self.kind {
            FileKind::Numbers => read_numbers(self.word.as_str()),
            _ => read_listed(self.word.as_str()).ok(),
        }
    }

    // Adds the sequence that the word which was read names, where sequences are wanted, and returns its character.
    fn take_sequence(&mut self) -> Result<Option<(u32, u32)>, AllocError> {
        let Some((code, selector)) = read_sequence(self.word.as_str()) else {
            return Ok(None);
        };
        match &mut self.sequences {
            Some(sequences) => {
                sequences.add(code, selector)?;
                Ok(Some((code, code)))
            }
            None => Ok(None),
        }
    }

    // Returns the codes that the word which was read names.
    fn take_named(&mut self) -> Result<(u32, u32), FileFault> {
        if let Some(codes) = self.named() {
            return Ok(codes);
        }
        match self.take_sequence()? {
            Some(codes) => Ok(codes),
            None => Err(self.bad_word()),
        }
    }

    // Takes the word that has ended with this character after it, if there is one.
    fn end_word(&mut self, after: char) -> Result<(), FileFault> {
        if self.word.is_empty() {
            return Ok(());
        }
        let codes = self.take_named()?;
        let named = self.columns.take(self.word.as_str(), codes, after);
        self.word.clear();
        Ok(self.add_named(named)?)
    }

    // Takes the end of a line.
    fn end_line(&mut self) -> Result<(), FileFault> {
        self.end_word('\n')?;
        self.is_comment = false;
        let named = self.columns.end_line();
        Ok(self.add_named(named)?)
    }

    fn add_letter(&mut self, letter: char) -> Result<(), FileFault> {
        if self.is_comment {
            return Ok(());
        }
        if LONGEST < self.word.len().saturating_add(4) {
            return Err(self.bad_word());
        }
        Ok(self.word.push(letter)?)
    }

    fn take_of_words(&mut self, letter: char) -> Result<(), FileFault> {
        match letter {
            '\n' => self.end_line(),
            ' ' | '\t' | '\r' | ',' | ';' => self.end_word(letter),
            ':' if self.kind != FileKind::Numbers && self.word.as_str() == DESCRIPTOR => {
                self.word.clear();
                Ok(())
            }
            '#' => {
                self.end_word(letter)?;
                self.is_comment = true;
                Ok(())
            }
            letter => self.add_letter(letter),
        }
    }

    // Takes a character of a text for its sequences. A control character parts others.
    fn take_of_sequences(&mut self, letter: char, is_wanted: bool) -> Result<(), AllocError> {
        match &mut self.sequences {
            Some(sequences) if is_wanted => sequences.take(letter),
            Some(sequences) => {
                sequences.end_text();
                Ok(())
            }
            None => Ok(()),
        }
    }

    // Takes a character of a text.
    fn take_of_text(&mut self, letter: char) -> Result<(), AllocError> {
        let is_wanted = !letter.is_control();
        if is_wanted {
            self.codes.add(letter as u32)?;
        }
        self.take_of_sequences(letter, is_wanted)?;
        match &mut self.needs {
            Some(needs) if is_wanted => needs.take(letter),
            // Nothing composes over a control character.
            Some(needs) => needs.end_segment(),
            None => Ok(()),
        }
    }

    fn take_letter(&mut self, letter: char) -> Result<(), FileFault> {
        let is_mark = self.is_new && letter == MARK;
        self.is_new = false;
        match self.kind {
            _ if is_mark => {}
            FileKind::List | FileKind::Words | FileKind::Numbers => self.take_of_words(letter)?,
            FileKind::Characters => self.take_of_text(letter)?,
        }
        if letter == '\n' {
            self.line = self.line.saturating_add(1);
        }
        Ok(())
    }

    // Takes the range word that begins at a place of a text, where all of it stands there. Returns how many bytes are
    // done with, its line end among them; else none is.
    fn take_whole_word(&mut self, text: &str, at: usize) -> Result<usize, FileFault> {
        let is_inside = self.is_comment || self.utf8.is_inside() || !self.word.is_empty();
        let rest = text.as_bytes().get(at..).unwrap_or(&[]);
        if is_inside || rest.first() != Some(&b'U') {
            return Ok(0);
        }
        let Some(length) = rest
            .iter()
            .take(LONGEST)
            .position(|&byte| parts_words(byte))
        else {
            return Ok(0);
        };
        let Some(word) = text.get(at..at.saturating_add(length)) else {
            return Ok(0);
        };
        let Ok(codes) = read_word(word) else {
            return Ok(0);
        };
        self.is_new = false;
        let after = rest.get(length).map_or('\n', |&byte| char::from(byte));
        if after == '\n' && self.columns.is_empty() {
            // A line of one word is none of those that `codes --glyphs` prints.
            self.codes.add_range(codes.0, codes.1)?;
            self.line = self.line.saturating_add(1);
            return Ok(length.saturating_add(1));
        }
        let named = self.columns.take(word, codes, after);
        self.add_named(named)?;
        if after != '\n' {
            return Ok(length);
        }
        self.end_line()?;
        self.line = self.line.saturating_add(1);
        Ok(length.saturating_add(1))
    }

    fn take_byte(&mut self, byte: u8) -> Result<(), FileFault> {
        match self.utf8.take(byte) {
            Ok(Some(letter)) => self.take_letter(letter),
            Ok(None) => Ok(()),
            Err(_) => Err(self.bad_line(None)),
        }
    }

    fn take(&mut self, bytes: &[u8]) -> Result<(), FileFault> {
        // Bytes that end within a character go letter by letter, as all do of a file of characters.
        let text = match self.kind {
            FileKind::List | FileKind::Words => str::from_utf8(bytes).unwrap_or(""),
            FileKind::Characters | FileKind::Numbers => "",
        };
        let mut at: usize = 0;
        for _ in 0..bytes.len() {
            let Some(&byte) = bytes.get(at) else {
                break;
            };
            let mut done = self.take_whole_word(text, at)?;
            if done == 0 {
                self.take_byte(byte)?;
                done = 1;
            }
            at = at.saturating_add(done);
        }
        Ok(())
    }

    // Takes the end of the file.
    fn end(&mut self) -> Result<(), FileFault> {
        if self.utf8.is_inside() {
            return Err(self.bad_line(None));
        }
        self.end_line()
    }

    // Takes a file, up to its end.
    fn read<R: Read>(&mut self, file: &mut R) -> Result<(), FileFault> {
        let mut piece = [0u8; PIECE];
        for _ in 0..u64::MAX {
            match file.read(&mut piece) {
                Ok(0) => return self.end(),
                Ok(count) => self.take(&piece[..count])?,
                Err(_) => return Err(FileFault::Unread),
            }
        }
        Ok(())
    }
}

/// Adds the codes that a file lists, or the glyph numbers.
///
/// # Errors
/// `Unread` where a read fails, `BadLine` with the first line that is not as it should be, `NoMemory`
/// if out of memory.
pub fn add_listed<R: Read>(
    alloc: Global,
    file: &mut R,
    kind: FileKind,
    codes: &mut CodeSet,
) -> Result<(), FileFault> {
    Reading::new(alloc, kind, codes, None, None)?.read(file)
}

/// Adds the codes that a file lists, and to a set the variation sequences for which it has words. The character of such a
/// word is listed, too.
///
/// # Errors
/// Those of `add_listed`.
pub fn add_listed_sequences<R: Read>(
    alloc: Global,
    file: &mut R,
    kind: FileKind,
    codes: &mut CodeSet,
    sequences: &mut SequenceSet,
) -> Result<(), FileFault> {
    let named = Some(TextSequences::new(alloc));
    let mut reading = Reading::new(alloc, kind, codes, None, named)?;
    reading.read(file)?;
    let Reading {
        sequences: named,
        ..
    } = reading;
    match named {
        Some(named) => Ok(named.end(sequences)?),
        None => Ok(()),
    }
}

/// Adds the characters of a text in a file, its variation sequences to a set of them, and to another set what the text
/// needs, where that is kept.
///
/// # Errors
/// Those of `add_listed`.
pub fn add_text_of_file<R: Read>(
    alloc: Global,
    file: &mut R,
    keeps_needed: bool,
    codes: &mut CodeSet,
    added: &mut CodeSet,
    sequences: &mut SequenceSet,
) -> Result<(), FileFault> {
    let needs = if keeps_needed {
        Some(TextNeeds::new(alloc))
    } else {
        None
    };
    let found = Some(TextSequences::new(alloc));
    let mut reading = Reading::new(alloc, FileKind::Characters, codes, needs, found)?;
    reading.read(file)?;
    let Reading {
        needs,
        sequences: found,
        ..
    } = reading;
    if let Some(found) = found {
        found.end(sequences)?;
    }
    match needs {
        Some(needs) => Ok(needs.end(added)?),
        None => Ok(()),
    }
}
