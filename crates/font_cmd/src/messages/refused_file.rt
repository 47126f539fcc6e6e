//! What files are that are refused as fonts or not joined: they are read again. OpenType 1.9, Organization of an
//! OpenType Font; WOFF File Format 1.0 and 2.0, the signature of a file.
use crate::messages::command_error::CommandError;
use crate::paths::regular_files::{FIRST_BYTES, opened, place_of, read_again, records_of};
use commands::RunError;
use font_coverage::{FileForm, cut_kind, file_form};
use font_file::{Font, FontError};
use font_join::{JoinAllError, JoinError};
use font_tables::TableError;
use font_texts::Shown;
use font_theory::Kind;
use program_files::System;
use sfnt_bytes::numbers::NO_MAPPING;
use std::alloc::{AllocError, Global};
use std::io::Read;
use std::rt::Files;

// What is said of a font whose mapping is not read.
const UNMAPPED: &str =
    "a font without a mapping of Unicode that is read: one of symbols alone has none";

// What is said of a cut that makes a join too large.
const TOO_LARGE: &str = "with this file the join is too large";

// Room for a line that says what a file is, beside its path.
const NO_FONT: usize = 120;

// What a font without `glyf` is that has one of these tables; the first one that it has decides.
const WITHOUT_GLYF: [(&[u8], &str); 7] = [
    (
        b"CBDT",
        "a font of colour bitmaps (CBDT), without outlines in glyf",
    ),
    (
        b"sbix",
        "a font of colour bitmaps (sbix), without outlines in glyf",
    ),
    (
        b"CFF2",
        "a font with CFF2 outlines, without outlines in glyf",
    ),
    (
        b"CFF ",
        "a font with CFF outlines, without outlines in glyf",
    ),
    (
        b"SVG ",
        "a colour font of SVG images, without outlines in glyf",
    ),
    (
        b"EBDT",
        "a font of bitmaps (EBDT), without outlines in glyf",
    ),
    (b"COLR", "a colour font (COLR), without outlines in glyf"),
];

/// What is known of files that are refused.
#[derive(Clone, Copy)]
pub(crate) enum Seen {
    /// Nothing.
    Nothing,
    /// What the refused file is.
    What(&'static str),
    /// What the file is that is refused as no cut of the kind that is asked for, and of which kind another file of the join
    /// is as a cut, where they can be read again.
    Form {
        form: Option<FileForm>,
        other: Option<Kind>,
    },
    /// Of which kind the first file of a join is as a cut, and the one that is refused, where that is known.
    Cuts {
        first: Option<Kind>,
        refused: Option<Kind>,
    },
}

// Returns what a file is that begins with these bytes.
fn format_of(first: &[u8]) -> Option<&'static str> {
    match first {
        b"OTTO" => Some("an OpenType font with CFF outlines, and not with TrueType outlines"),
        b"wOF2" => Some("a WOFF2 file, which woff2_decompress unpacks"),
        b"wOFF" => Some("a WOFF file, which holds a font that is packed"),
        b"ttcf" => Some("a collection of fonts"),
        _ => None,
    }
}

// Returns what a font without `glyf` is by its records of tables.
fn format_without_glyf(rows: &[(&[u8], &'static str)], records: &[u8]) -> Option<&'static str> {
    if place_of(records, b"glyf").is_some() {
        return None;
    }
    for (tag, format) in rows {
        if place_of(records, tag).is_some() {
            return Some(*format);
        }
    }
    None
}

// Returns what a refused font is by its first bytes, or by its tables where `glyf` is missing.
fn format_by(first: &[u8], is_without_glyf: bool) -> Option<&'static str> {
    if is_without_glyf {
        return format_without_glyf(&WITHOUT_GLYF, records_of(first));
    }
    format_of(first.get(..4).unwrap_or(&[]))
}

// Returns what the file at a path is by its first bytes, where it can be read again.
fn format_at<F: Files>(files: &F, path: &str, is_without_glyf: bool) -> Option<&'static str> {
    let mut file = opened(files, path)?;
    let mut first = [0u8; FIRST_BYTES];
    match file.read(&mut first) {
        Ok(count) => format_by(first.get(..count)?, is_without_glyf),
        Err(_) => None,
    }
}

// Returns the kind of a file that is a cut.
fn file_kind(alloc: Global, file: &[u8]) -> Result<Option<Kind>, AllocError> {
    let Ok(font) = Font::open(file) else {
        return Ok(None);
    };
    cut_kind(alloc, &font).map_err(|_| AllocError)
}

// Returns the kind of the cut at a path, where it is one and can be read again.
fn cut_kind_at<F: Files>(files: &F, alloc: Global, path: &str) -> Result<Option<Kind>, AllocError> {
    match read_again(files, alloc, path)? {
        Some(file) => file_kind(alloc, &file),
        None => Ok(None),
    }
}

// Returns why a file is refused as a font, where that is why a run is not done.
fn font_error(error: &RunError) -> Option<&FontError> {
    match error {
        RunError::Font(error)
        | RunError::OneOf(_, error)
        | RunError::Join(
            JoinAllError::At {
                step: _,
                error: JoinError::Font(_, error),
            },
        ) => Some(error),
        _ => None,
    }
}

// Returns what a file is that is no font, by the refusal and by its first bytes.
fn refused_font<F: Files>(files: &F, path: &str, error: &FontError) -> Option<&'static str> {
    if error.number() == NO_MAPPING {
        return Some(UNMAPPED);
    }
    let is_without_glyf = match error {
        FontError::Tables(TableError::MissingTable(tag)) => tag.0 == *b"glyf",
        _ => false,
    };
    format_at(files, path, is_without_glyf)
}

/// Returns room for the line of `add_no_font` about the file at a path, each byte of which may take four.
pub(crate) fn room_for_no_font(path: &str) -> usize {
    path.len().saturating_mul(4).saturating_add(NO_FONT)
}

/// Adds the line that says what the file at a path is, where its first bytes tell that it is no font that is accepted, and
/// it can be read again.
///
/// # Errors
/// `AllocError` if out of memory.
pub(crate) fn add_no_font<F: Files>(
    files: &F,
    text: &mut String,
    path: &str,
) -> Result<(), AllocError> {
    let what = match format_at(files, path, false) {
        None => format_at(files, path, true),
        what => what,
    };
    if let Some(what) = what {
        let path = Shown(path);
        write!(text, "fontcut: {path}: {what}\n")?;
    }
    Ok(())
}

// Returns what the file at a path is, where it is a font and can be read again.
fn form_at<F: Files>(files: &F, alloc: Global, path: &str) -> Result<Option<FileForm>, AllocError> {
    let Some(file) = read_again(files, alloc, path)? else {
        return Ok(None);
    };
    let Ok(font) = Font::open(&file) else {
        return Ok(None);
    };
    match file_form(alloc, &font) {
        Ok(form) => Ok(Some(form)),
        Err(_) => Err(AllocError),
    }
}

// Returns whether a file of a join is refused because the join is too large with it.
fn is_too_large(error: &RunError) -> bool {
    matches!(
        error,
        RunError::Join(JoinAllError::At {
            step: _,
            error: JoinError::TooLarge(_),
        })
    )
}

// Returns what is known of a refused file.
fn refused_seen<F: Files>(files: &F, path: &str, error: &RunError) -> Seen {
    if is_too_large(error) {
        return Seen::What(TOO_LARGE);
    }
    let Some(error) = font_error(error) else {
        return Seen::Nothing;
    };
    match refused_font(files, path, error) {
        Some(what) => Seen::What(what),
        None => Seen::Nothing,
    }
}

/// Returns what is known of the files that are why a line is not done. They are read again for that.
///
/// # Errors
/// `AllocError` if out of memory.
pub(crate) fn look_again<F: Files, I, O>(
    system: &System<'_, F, I, O>,
    error: &CommandError<'_>,
) -> Result<Seen, AllocError> {
    let (files, alloc) = (system.files, system.alloc);
    match error {
        CommandError::RefusedFile { path, error } => Ok(refused_seen(files, path, error)),
        CommandError::NotJoined {
            kind: Kind::Lean,
            path,
            first,
            ..
        } => Ok(Seen::Cuts {
            first: Some(cut_kind_at(files, alloc, first)?.unwrap_or(Kind::Lean)),
            refused: Some(cut_kind_at(files, alloc, path)?.unwrap_or(Kind::Lean)),
        }),
        CommandError::NotJoined { path, first, .. } => Ok(Seen::Cuts {
            first: cut_kind_at(files, alloc, first)?,
            refused: cut_kind_at(files, alloc, path)?,
        }),
        CommandError::NotOfKind { path, other, .. } => Ok(Seen::Form {
            form: form_at(files, alloc, path)?,
            other: cut_kind_at(files, alloc, other)?,
        }),
        _ => Ok(Seen::Nothing),
    }
}
