//! Files that are read and then replaced, by one process at a time. This project's own.
use crate::held_files::HeldFiles;
use crate::out_file::standing_file;
use std::alloc::{AllocError, Global};
use std::fs::{OpenFile, OpenOptions};
use std::os::unix::fs::MetadataExt;

/// Opens the regular file at a path, its links followed, where one stands there that may be written: some file systems
/// lock no other one. Returns none where there is no such file.
///
/// # Errors
/// `AllocError` if out of memory.
pub fn writable_file<F: HeldFiles>(
    files: &F,
    alloc: Global,
    path: &str,
) -> Result<Option<F::File>, AllocError> {
    if standing_file(files, alloc, path)?.is_none() {
        return Ok(None);
    }
    Ok(OpenOptions::new().write(true).open(files, path).ok())
}

/// Returns whether an open file is the one that stands at a path: another process may have replaced it.
///
/// # Errors
/// `AllocError` if out of memory.
pub fn stands_at<F: HeldFiles>(
    files: &F,
    alloc: Global,
    path: &str,
    file: &F::File,
) -> Result<bool, AllocError> {
    let Some(stands) = standing_file(files, alloc, path)? else {
        return Ok(false);
    };
    match file.metadata() {
        Ok(opened) => Ok(opened.ino() == stands.ino() && opened.dev() == stands.dev()),
        Err(_) => Ok(false),
    }
}
