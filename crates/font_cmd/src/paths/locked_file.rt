//! The file that a join in place replaces, which is locked. This project's own.
use crate::paths::kept_font::is_among;
use command_line::{Join, STANDARD};
use program_files::{HeldFiles, System, stands_at, writable_file};
use std::alloc::AllocError;
use std::fs::OpenFile;

// How often a file is opened that others replace meanwhile. Each time another process has replaced it.
const TURNS: u32 = 1_000_000;

/// Waits for the lock of the file that stands at OUT, where it is one of FILES too, and returns it. So joins in place go one
/// after another, and each has what those before it have added. Where such a file has no lock, none is waited for.
///
/// A process that had the lock may have replaced the file, or replace it while FILES are looked at: then the file that
/// stands there now is opened. As long as a file is open, no other one has its number.
///
/// # Errors
/// `AllocError` if out of memory.
pub(crate) fn locked_out<F: HeldFiles, I, O>(
    system: &System<'_, F, I, O>,
    line: &Join<'_>,
) -> Result<Option<F::File>, AllocError> {
    let (files, alloc) = (system.files, system.alloc);
    for _ in 0..TURNS {
        if line.out == STANDARD {
            break;
        }
        let Some(file) = writable_file(files, alloc, line.out)? else {
            break;
        };
        let Ok(opened) = file.metadata() else {
            break;
        };
        let is_in_place = is_among(files, &line.files, &opened);
        if is_in_place && files.wait_for(&file).is_err() {
            break;
        }
        if stands_at(files, alloc, line.out, &file)? {
            return Ok(if is_in_place { Some(file) } else { None });
        }
    }
    Ok(None)
}
