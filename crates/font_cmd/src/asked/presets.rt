//! Presets of slices: files that are installed beside the program, as PREFIX/share/fontcut/slices/NAME.txt where that is
//! PREFIX/bin/fontcut. This project's own.
use crate::messages::command_error::CommandError;
use crate::paths::inputs::Input;
use program_files::{KeepsReason, System};
use std::alloc::{AllocError, Global};
use std::fs::File;
use std::io::{ErrorKind, Read};
use std::rt::Files;

// The link to the program that runs.
const PROGRAM: &str = "/proc/self/exe";

// The number of the system's error that there is no such file, ENOENT.
const NO_SUCH_FILE: i32 = 2;

/// Returns whether a path, at which no file could be opened, may be the name of a preset: no file is there, and the path
/// has neither a slash nor a dot.
pub(crate) fn may_be_preset<F, I, O>(system: &System<'_, F, I, O>, path: &str) -> bool {
    let is_absent = system.reason.number() == Some(NO_SUCH_FILE);
    is_absent && !path.contains('/') && !path.contains('.')
}

// Returns the path of the file of a preset. There is none where the system does not say which program runs.
fn preset_path<F: Files>(
    files: &F,
    alloc: Global,
    name: &str,
) -> Result<Option<String>, AllocError> {
    let program = match files.read_link(alloc, PROGRAM) {
        Ok(program) => program,
        Err(error) if error.kind() == ErrorKind::OutOfMemory => return Err(AllocError),
        Err(_) => return Ok(None),
    };
    let Some(folder) = program.parent() else {
        return Ok(None);
    };
    let Some(prefix) = folder.parent() else {
        return Ok(None);
    };
    let prefix = prefix.as_str();
    let path = format!(in alloc; "{prefix}/share/fontcut/slices/{name}.txt")?;
    Ok(Some(path))
}

/// Opens the file of a preset.
///
/// # Errors
/// `Unlisted` where none of this name is installed, `Refused` if out of memory.
pub(crate) fn preset_source<'a, F: Files, I: Read + Copy + Drop, O>(
    system: &System<'a, F, I, O>,
    name: &'a str,
) -> Result<KeepsReason<'a, Input<F::File, I>>, CommandError<'a>> {
    let Some(path) = preset_path(system.files, system.alloc, name)? else {
        return Err(CommandError::Unlisted(name));
    };
    match File::open(system.files, path.as_str()) {
        Ok(file) => Ok(KeepsReason::new(Input::File(file), system.reason)),
        Err(_) => Err(CommandError::Unlisted(name)),
    }
}
