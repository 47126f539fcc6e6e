//! Files that a line would replace by mistake: the font of which FONT, or one of FILES, is a cut, as where names of files
//! are exchanged; FONT itself by its cut or a slice; and one of two cuts that are joined where OUT is forgotten.
use crate::messages::command_error::{CommandError, Writes, no_memory};
use crate::paths::regular_files::{may_be_cut_at, read_again};
use command_line::{Join, STANDARD, Slices, Subset};
use commands::without_tables;
use font_coverage::{cut_kind, is_of_layout, kind_of_cut, may_be_cut};
use font_file::Font;
use font_theory::Kind;
use program_files::{HeldFiles, System, standing_file};
use std::alloc::{AllocError, Global};
use std::fs;
use std::os::unix::fs::MetadataExt;

// Returns whether the file at a path is this one.
fn is_file_at<F: HeldFiles>(files: &F, path: &str, stands: &fs::Metadata) -> bool {
    if path == STANDARD {
        return false;
    }
    match fs::metadata(files, path) {
        Ok(other) => other.ino() == stands.ino() && other.dev() == stands.dev(),
        Err(_) => false,
    }
}

// Returns the file of a font without the tables of layout that another one lacks: a cut may be one without them.
fn with_tables_of(alloc: Global, font: &Font<'_>, cut: &Font<'_>) -> Result<Vec<u8>, AllocError> {
    let mut lacking = Vec::new(alloc);
    for entry in font.tables().directory().dropped() {
        let tag = entry.tag;
        let mut records = cut.tables().directory().records();
        if is_of_layout(tag) && !records.any(|record| record.tag == tag) {
            lacking.push(tag)?;
        }
    }
    without_tables(alloc, font.tables().directory(), &lacking)
}

// Returns whether a font is a cut of the font of a file, of any kind.
fn is_cut_of_file(alloc: Global, cut: &Font<'_>, file: &[u8]) -> Result<bool, AllocError> {
    let Ok(font) = Font::open(file) else {
        return Ok(false);
    };
    match kind_of_cut(alloc, cut, &font) {
        Ok(kind) => Ok(kind.is_some()),
        Err(_) => Err(AllocError),
    }
}

// Returns the font of a file, where it is a cut. Most files that have none are told by their `cmap`.
fn cut_in(alloc: Global, file: &[u8]) -> Result<Option<Font<'_>>, AllocError> {
    if !may_be_cut(file) {
        return Ok(None);
    }
    let Ok(font) = Font::open(file) else {
        return Ok(None);
    };
    match cut_kind(alloc, &font) {
        Ok(Some(_)) => Ok(Some(font)),
        Ok(None) => Ok(None),
        Err(_) => Err(AllocError),
    }
}

// Returns whether a file has a font that is no cut, and of which another font is a cut. What the file is comes first: a
// small cut is often written over another one.
fn is_font_of(alloc: Global, file: &[u8], cut: &Font<'_>) -> Result<bool, AllocError> {
    if cut_in(alloc, file)?.is_some() {
        return Ok(false);
    }
    let Ok(font) = Font::open(file) else {
        return Ok(false);
    };
    let left = with_tables_of(alloc, &font, cut)?;
    is_cut_of_file(alloc, cut, &left)
}

// Returns whether the file at a path has a font that is no cut, and of which this cut is one.
fn has_font_of<F: HeldFiles, I, O>(
    system: &System<'_, F, I, O>,
    path: &str,
    cut: &Font<'_>,
) -> Result<bool, AllocError> {
    match read_again(system.files, system.alloc, path)? {
        Some(file) => is_font_of(system.alloc, &file, cut),
        None => Ok(false),
    }
}

// Returns whether the file that stands at a path may have a font of which a file of this size is a cut: where it is no
// longer than that, and has the `cmap` of a cut, it is most often an earlier cut, and is not read.
fn may_be_font_at<F: HeldFiles>(files: &F, path: &str, stands: &fs::Metadata, size: usize) -> bool {
    (size as u64) < stands.len() || !may_be_cut_at(files, path)
}

// Returns the error that a command would write over a font, of which the file at a path is a cut.
fn over_font<'a>(alloc: Global, writes: Writes, cut: &'a str, font: &str) -> CommandError<'a> {
    match String::from_str(alloc, font) {
        Ok(font) => CommandError::OverFont { writes, cut, font },
        Err(_) => no_memory(),
    }
}

// Returns whether the cut of FONT is to replace it, where that is no cut. A full cut may.
fn replaces_itself<'a>(
    alloc: Global,
    kind: Kind,
    font: &'a str,
    file: &[u8],
) -> Result<bool, CommandError<'a>> {
    if cut_in(alloc, file)?.is_some() {
        return Ok(false);
    }
    if kind == Kind::Full {
        return Ok(true);
    }
    Err(CommandError::OverItself {
        writes: Writes::Cut,
        font,
    })
}

/// Refuses a line that would replace a font by a cut, where FONT, whose file this is, is a cut of it, or the font itself
/// and the cut is no full one, and that is not forced. Returns whether a full cut replaces FONT, which is no cut. Where
/// nothing stands at OUT, only that is looked at.
///
/// # Errors
/// `OverFont` and `OverItself` where it would, `Refused` if out of memory.
pub(crate) fn replaces_font<'a, F: HeldFiles, I, O>(
    system: &System<'a, F, I, O>,
    kind: Kind,
    line: &Subset<'a>,
    file: &[u8],
) -> Result<bool, CommandError<'a>> {
    if line.is_forced || line.out == STANDARD {
        return Ok(false);
    }
    let Some(stands) = standing_file(system.files, system.alloc, line.out)? else {
        return Ok(false);
    };
    if is_file_at(system.files, line.font, &stands) {
        return replaces_itself(system.alloc, kind, line.font, file);
    }
    if !may_be_font_at(system.files, line.out, &stands, file.len()) {
        return Ok(false);
    }
    match cut_in(system.alloc, file)? {
        Some(cut) if has_font_of(system, line.out, &cut)? => {
            Err(over_font(system.alloc, Writes::Cut, line.font, line.out))
        }
        _ => Ok(false),
    }
}

// Returns whether the file that stands at the path of a slice may have a font of which FONT, whose file has this size, is a
// cut. FONT itself is refused there.
fn may_hold_font<'a, F: HeldFiles, I, O>(
    system: &System<'a, F, I, O>,
    font: &'a str,
    size: usize,
    path: &str,
) -> Result<bool, CommandError<'a>> {
    let Some(stands) = standing_file(system.files, system.alloc, path)? else {
        return Ok(false);
    };
    if is_file_at(system.files, font, &stands) {
        return Err(CommandError::OverItself {
            writes: Writes::Slices,
            font,
        });
    }
    Ok(may_be_font_at(system.files, path, &stands, size))
}

// Refuses to write slices of FONT over a font of which it is a cut, at the first of these paths that has one.
fn keep_from_cut<'a, F: HeldFiles, I, O>(
    system: &System<'a, F, I, O>,
    font: &'a str,
    cut: &Font<'_>,
    paths: &[&str],
) -> Result<(), CommandError<'a>> {
    for &path in paths {
        if has_font_of(system, path, cut)? {
            return Err(over_font(system.alloc, Writes::Slices, font, path));
        }
    }
    Ok(())
}

/// Refuses a line whose slices would replace FONT, whose file this is, or a font of which FONT is a cut, where that is not
/// forced. These are the paths of the slices.
///
/// # Errors
/// `OverItself` and `OverFont` where one would, `Refused` if out of memory.
pub(crate) fn keep_from_slices<'a, F: HeldFiles, I, O>(
    system: &System<'a, F, I, O>,
    line: &Slices<'a>,
    file: &[u8],
    paths: &[String],
) -> Result<(), CommandError<'a>> {
    if line.is_forced {
        return Ok(());
    }
    let mut doubtful = Vec::new(system.alloc);
    for path in paths {
        let path = path.as_str();
        if may_hold_font(system, line.font, file.len(), path)? && doubtful.push(path).is_err() {
            return Err(no_memory());
        }
    }
    if doubtful.is_empty() {
        return Ok(());
    }
    match cut_in(system.alloc, file)? {
        Some(cut) => keep_from_cut(system, line.font, &cut, &doubtful),
        None => Ok(()),
    }
}

/// Returns whether a file is at one of some paths.
pub(crate) fn is_among<F: HeldFiles>(files: &F, paths: &[&str], stands: &fs::Metadata) -> bool {
    for path in paths {
        if is_file_at(files, path, stands) {
            return true;
        }
    }
    false
}

// Returns the first file of some paths that can be read again, and its path.
fn first_readable<'a, F: HeldFiles, I, O>(
    system: &System<'_, F, I, O>,
    paths: &[&'a str],
) -> Result<Option<(&'a str, Vec<u8>)>, AllocError> {
    for &path in paths {
        if let Some(file) = read_again(system.files, system.alloc, path)? {
            return Ok(Some((path, file)));
        }
    }
    Ok(None)
}

// Returns whether a file stands at OUT that may be a font: none of FILES, and none with the `cmap` of a cut, which is what
// most joins replace.
fn may_replace_font<F: HeldFiles, I, O>(
    system: &System<'_, F, I, O>,
    line: &Join<'_>,
) -> Result<bool, AllocError> {
    match standing_file(system.files, system.alloc, line.out)? {
        Some(stands) => Ok(
            !is_among(system.files, &line.files, &stands) && !may_be_cut_at(system.files, line.out),
        ),
        None => Ok(false),
    }
}

/// Refuses a line whose first word is OUT where the one file that follows it would replace another file: so it is where
/// OUT is forgotten, and two cuts are named.
///
/// # Errors
/// `Replaces` where it would, `Refused` if out of memory.
pub(crate) fn keep_forgotten<'a, F: HeldFiles, I, O>(
    system: &System<'a, F, I, O>,
    line: &Join<'a>,
) -> Result<(), CommandError<'a>> {
    let (out, count) = (line.out, line.files.len());
    if count != 1 || !line.has_out_first || out == STANDARD {
        return Ok(());
    }
    let Some(&file) = line.files.first() else {
        return Ok(());
    };
    let Some(stands) = standing_file(system.files, system.alloc, out)? else {
        return Ok(());
    };
    if file == out || is_file_at(system.files, file, &stands) {
        return Ok(());
    }
    Err(CommandError::Replaces { file, out })
}

/// Refuses a line that would replace a font by a join of its cuts, where that is not forced. The first file that can be
/// read again stands for all of them.
///
/// # Errors
/// `OverFont` where it would, `Refused` if out of memory.
pub(crate) fn keep_from_join<'a, F: HeldFiles, I, O>(
    system: &System<'a, F, I, O>,
    line: &Join<'a>,
) -> Result<(), CommandError<'a>> {
    if line.is_forced || line.out == STANDARD || !may_replace_font(system, line)? {
        return Ok(());
    }
    let Some((cut, file)) = first_readable(system, &line.files)? else {
        return Ok(());
    };
    match cut_in(system.alloc, &file)? {
        Some(font) if has_font_of(system, line.out, &font)? => {
            Err(over_font(system.alloc, Writes::Join, cut, line.out))
        }
        _ => Ok(()),
    }
}
