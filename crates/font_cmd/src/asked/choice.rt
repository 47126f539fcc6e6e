//! The codes that a line of `subset` keeps: those of its words, lists, texts and files, and what texts need; and the
//! glyphs that it keeps by their numbers.
use crate::asked::glyph_numbers::{listed_glyphs, names_glyphs};
use crate::asked::unnamed::{add_empty_files, said_of_options};
use crate::asked::words::{
    add_files, add_lists, add_lists_and_sequences, add_text_files, add_word_files, characters_of,
    codes_of,
};
use crate::messages::command_error::CommandError;
use crate::paths::inputs::sources;
use command_line::{CutKind, Subset};
use font_coverage::Kept;
use program_files::{HeldFiles, System};
use std::alloc::{AllocError, Global};
use std::io::Read;
use wanted_characters::{CodeSet, FileKind, add_all_parts, add_sequences, add_texts};

/// The codes that a line keeps, those that it takes away from them, and the numbers of glyphs that it keeps; and what is
/// said of its options and files that name nothing.
pub(crate) struct Choice {
    kept: Kept,
    gone: CodeSet,
    glyphs: CodeSet,
    said: String,
}

impl Drop for Choice {
    fn drop(self) {
        let Choice {
            kept: _kept,
            gone: _gone,
            glyphs: _glyphs,
            said: _said,
        } = self;
    }
}

// Returns whether cuts of the kind of a line keep variation sequences, as those with layout do.
fn keeps_sequences(line: &Subset<'_>) -> bool {
    matches!(line.kind, CutKind::Layout | CutKind::Variable)
}

// Returns whether what the texts of a line need is kept with them.
fn keeps_needed(line: &Subset<'_>) -> bool {
    keeps_sequences(line) && !line.keeps_text_alone
}

// Adds the codes of lists and the parts of their characters.
fn add_completed<'a>(
    alloc: Global,
    kept: &mut Kept,
    lists: &[&'a str],
) -> Result<(), CommandError<'a>> {
    let mut codes = CodeSet::new(alloc);
    add_lists_and_sequences(alloc, &mut codes, &mut kept.listed, lists)?;
    add_all_parts(alloc, &mut kept.added, &codes)?;
    Ok(kept.wanted.add_all(alloc, &codes)?)
}

// Returns the codes that the arguments of a line keep.
fn kept_by<'a>(alloc: Global, line: &Subset<'a>) -> Result<Kept, CommandError<'a>> {
    let mut kept = Kept::new(alloc);
    kept.wanted = codes_of(alloc, &mut kept.listed, &line.words)?;
    kept.texts = characters_of(alloc, &line.texts)?;
    kept.wanted.add_all(alloc, &kept.texts)?;
    let (wanted, listed) = (&mut kept.wanted, &mut kept.listed);
    add_lists_and_sequences(alloc, wanted, listed, &line.lists)?;
    add_completed(alloc, &mut kept, &line.completed)?;
    if keeps_needed(line) {
        add_texts(alloc, &mut kept.added, &line.texts)?;
    }
    if keeps_sequences(line) {
        add_sequences(alloc, &mut kept.sequences, &line.texts)?;
    }
    Ok(kept)
}

impl Choice {
    /// Returns the codes and the numbers of the arguments of a line, which are looked at before any file.
    ///
    /// # Errors
    /// The first error.
    pub(crate) fn of<'a>(alloc: Global, line: &Subset<'a>) -> Result<Choice, CommandError<'a>> {
        let kept = kept_by(alloc, line)?;
        let mut gone = CodeSet::new(alloc);
        add_lists(alloc, &mut gone, &line.excluded)?;
        let glyphs = listed_glyphs(alloc, line)?;
        let said = said_of_options(alloc, line)?;
        Ok(Choice {
            kept,
            gone,
            glyphs,
            said,
        })
    }

    /// Returns the codes that are left, the numbers of glyphs, and what is said.
    ///
    /// # Errors
    /// `AllocError` if out of memory.
    pub(crate) fn left(self, alloc: Global) -> Result<(Kept, CodeSet, String), AllocError> {
        let Choice {
            kept,
            gone,
            glyphs,
            said,
        } = self;
        if gone.is_empty() {
            return Ok((kept, glyphs, said));
        }
        Ok((kept.without(alloc, &gone)?, glyphs, said))
    }
}

// Adds the characters of the files of texts, and with them their sequences and what the texts need, where cuts of the kind
// keep these. Returns the paths of those without a character.
fn add_texts_of_files<'a, R: Read + Drop>(
    alloc: Global,
    line: &Subset<'a>,
    files: Vec<R>,
    kept: &mut Kept,
) -> Result<Vec<&'a str>, CommandError<'a>> {
    let paths = &line.text_files;
    let empty = if keeps_sequences(line) {
        add_text_files(alloc, files, paths, keeps_needed(line), kept)?
    } else {
        add_files(alloc, files, paths, FileKind::Characters, &mut kept.texts)?
    };
    kept.wanted.add_all(alloc, &kept.texts)?;
    Ok(empty)
}

// The files that a line names, none of which is read yet.
struct Opened<R> {
    texts: Vec<R>,
    words: Vec<R>,
    excluded: Vec<R>,
    glyphs: Vec<R>,
}

// Written out, as that of a choice.
impl<R: Drop> Drop for Opened<R> {
    fn drop(self) {
        let Opened {
            texts: _texts,
            words: _words,
            excluded: _excluded,
            glyphs: _glyphs,
        } = self;
    }
}

impl<R: Read + Drop> Opened<R> {
    // Adds the codes of files that are open.
    fn add_to<'a>(
        self,
        alloc: Global,
        line: &Subset<'a>,
        choice: &mut Choice,
    ) -> Result<(), CommandError<'a>> {
        let Opened {
            texts,
            words,
            excluded,
            glyphs,
        } = self;
        let empty = add_texts_of_files(alloc, line, texts, &mut choice.kept)?;
        add_empty_files(&mut choice.said, &empty, FileKind::Characters)?;
        let empty = add_word_files(alloc, words, &line.code_files, &mut choice.kept)?;
        add_empty_files(&mut choice.said, &empty, FileKind::Words)?;
        let paths = &line.excluded_files;
        // That nothing is taken away is no mistake.
        let _empty = add_files(alloc, excluded, paths, FileKind::Words, &mut choice.gone)?;
        let (paths, numbers) = (&line.glyph_files, &mut choice.glyphs);
        let empty = add_files(alloc, glyphs, paths, FileKind::Numbers, numbers)?;
        Ok(add_empty_files(&mut choice.said, &empty, FileKind::Numbers)?)
    }
}

/// Adds the codes and the numbers of the files that a line names, which are all opened before one is read.
///
/// # Errors
/// The first error.
pub(crate) fn add_all_files<'a, F: HeldFiles, I: Read + Copy + Drop, O>(
    system: &System<'a, F, I, O>,
    line: &Subset<'a>,
    choice: &mut Choice,
) -> Result<(), CommandError<'a>> {
    let files = Opened {
        texts: sources(system, &line.text_files)?,
        words: sources(system, &line.code_files)?,
        excluded: sources(system, &line.excluded_files)?,
        glyphs: sources(system, &line.glyph_files)?,
    };
    files.add_to(system.alloc, line, choice)
}

/// Returns whether a line names a set of characters or of glyphs, be it empty.
pub(crate) fn names_set(line: &Subset<'_>) -> bool {
    let has_texts = !line.texts.is_empty() || !line.text_files.is_empty();
    let has_lists = !line.lists.is_empty() || !line.completed.is_empty();
    let has_files = !line.code_files.is_empty() || names_glyphs(line);
    has_texts || has_lists || has_files || !line.words.is_empty()
}
