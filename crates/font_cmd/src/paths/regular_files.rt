//! Regular files that are read again, whole or their first bytes. OpenType 1.9, Organization of an OpenType Font, Table
//! Directory.
use command_line::STANDARD;
use font_coverage::is_cmap_of_cut;
use font_texts::{long_at, number_at};
use std::alloc::{AllocError, Global};
use std::fs::File;
use std::io::{Read, Seek, SeekFrom};
use std::rt::Files;
use std::{fs, io};
use streams::{Inlet, ReadError};

/// How many of its first bytes are read of a file: those before the records of tables, and 64 records.
pub(crate) const FIRST_BYTES: usize = 1036;

// The bytes before the records of tables, and those of a record.
const HEADER: usize = 12;

const RECORD: usize = 16;

/// Opens the regular file at a path once more, where there is one. A pipe has no more bytes, and would be waited for.
pub(crate) fn opened<F: Files>(files: &F, path: &str) -> Option<F::File> {
    if path == STANDARD {
        return None;
    }
    let stands = fs::metadata(files, path).ok()?;
    if !stands.is_file() {
        return None;
    }
    File::open(files, path).ok()
}

/// Returns the records of tables among the first bytes of a font, or none where these do not have all of them.
pub(crate) fn records_of(first: &[u8]) -> &[u8] {
    let count = number_at(first, 4);
    let all = first.get(HEADER..).unwrap_or(&[]);
    all.get(..count.saturating_mul(RECORD)).unwrap_or(&[])
}

/// Returns where the first table of a tag begins by records of tables, where there is one.
pub(crate) fn place_of(records: &[u8], tag: &[u8]) -> Option<u64> {
    for record in records.chunks_exact(RECORD) {
        if record.starts_with(tag) {
            return Some(long_at(record, 8) as u64);
        }
    }
    None
}

// Returns whether a file has the `cmap` of a cut, where it can be read and sought in.
fn has_cmap_of_cut<R: Read + Seek>(file: &mut R) -> io::Result<bool> {
    let mut first = [0u8; FIRST_BYTES];
    let count = file.read(&mut first)?;
    let Some(place) = place_of(records_of(first.get(..count).unwrap_or(&[])), b"cmap") else {
        return Ok(false);
    };
    file.seek(SeekFrom::Start(place))?;
    let count = file.read(&mut first)?;
    Ok(is_cmap_of_cut(first.get(..count).unwrap_or(&[])))
}

/// Returns whether the regular file at a path has the `cmap` of a cut. No more of it is read than that takes.
pub(crate) fn may_be_cut_at<F: Files>(files: &F, path: &str) -> bool {
    match opened(files, path) {
        Some(mut file) => matches!(has_cmap_of_cut(&mut file), Ok(true)),
        None => false,
    }
}

/// Reads the regular file at a path to its end, where there is one and it can be read.
///
/// # Errors
/// `AllocError` if out of memory.
pub(crate) fn read_again<F: Files>(
    files: &F,
    alloc: Global,
    path: &str,
) -> Result<Option<Vec<u8>>, AllocError> {
    let Some(file) = opened(files, path) else {
        return Ok(None);
    };
    let mut inlet = Inlet::new(file);
    match inlet.read_all(alloc) {
        Ok(bytes) => Ok(Some(bytes)),
        Err(ReadError::NoMemory) => Err(AllocError),
        Err(_) => Ok(None),
    }
}
