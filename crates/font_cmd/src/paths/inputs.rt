//! Files that are read, and standard input.
ghost use Rattle.std.specs.Prelude.{◌≡◌, IfOk, true};
ghost use Rattle.streams.specs.Inlet.{inlet_fresh_of};
ghost use Rattle.commands.specs.JoinRun.{AreFresh};

use crate::messages::command_error::{CommandError, no_memory};
use command_line::STANDARD;
use commands::RunError;
use font_file::Font;
use program_files::{KeepsReason, System};
use std::alloc::{AllocError, Global};
use std::fs::File;
use std::io;
use std::io::Read;
use std::rt::Files;
use streams::Inlet;

/// A file that was opened, or standard input.
#[derive(Drop)]
pub(crate) enum Input<H, I> {
    File(H),
    Standard(I),
}

impl<H: Read, I: Read> Read for Input<H, I> {
    fn read(&mut self, bytes: &mut [u8]) -> io::Result<usize> {
        match self {
            Input::File(file) => file.read(bytes),
            Input::Standard(input) => input.read(bytes),
        }
    }
}

/// Returns what messages call the input at a path.
pub(crate) fn input_name(path: &str) -> &str {
    if path == STANDARD {
        "standard input"
    } else {
        path
    }
}

/// Opens the file at a path, or standard input, of which nothing is read yet.
///
/// # Errors
/// `Unread` where it cannot be opened.
pub(crate) fn source<'a, F: Files, I: Read + Copy + Drop, O>(
    system: &System<'a, F, I, O>,
    path: &'a str,
) -> Result<KeepsReason<'a, Input<F::File, I>>, CommandError<'a>> {
    if path == STANDARD {
        return Ok(KeepsReason::new(Input::Standard(system.input), system.reason));
    }
    match File::open(system.files, path) {
        Ok(file) => Ok(KeepsReason::new(Input::File(file), system.reason)),
        Err(error) => {
            system.reason.keep(error);
            Err(CommandError::Unread(path))
        }
    }
}

/// Opens the files at some paths, none of which is read before all are open.
///
/// # Errors
/// `Unread` with the first path whose file cannot be opened, `Refused` if out of memory.
pub(crate) fn sources<'a, F: Files, I: Read + Copy + Drop, O>(
    system: &System<'a, F, I, O>,
    paths: &[&'a str],
) -> Result<Vec<KeepsReason<'a, Input<F::File, I>>>, CommandError<'a>> {
    let mut opened = Vec::new(system.alloc);
    for &path in paths {
        let file = source(system, path)?;
        if opened.push(file).is_err() {
            return Err(no_memory());
        }
    }
    Ok(opened)
}

/// Opens the file at a path for a run.
///
/// # Errors
/// `Unread` where it cannot be opened.
pub(crate) fn inlet_at<'a, F: Files, I: Read + Copy + Drop, O>(
    system: &System<'a, F, I, O>,
    path: &'a str,
) -> Result<Inlet<KeepsReason<'a, Input<F::File, I>>>, CommandError<'a>>
    ensures { IfOk result (λ inlet. inlet_fresh_of inlet ≡ true) }
{
    Ok(Inlet::new(source(system, path)?))
}

/// Reads the file of an inlet to its end, whose path this is.
///
/// # Errors
/// `Unread` where it cannot be read, `Refused` if out of memory.
pub(crate) fn read_inlet<'a, R: Read>(
    alloc: Global,
    inlet: &mut Inlet<R>,
    path: &'a str,
) -> Result<Vec<u8>, CommandError<'a>>
    requires { inlet_fresh_of inlet.old ≡ true }
{
    inlet.read_all(alloc).map_err(|error| CommandError::of_run(path, path, RunError::from(error)))
}

/// Reads the file at a path to its end.
///
/// # Errors
/// `Unread` where it cannot be read, `Refused` if out of memory.
pub(crate) fn read_whole<'a, F: Files, I: Read + Copy + Drop, O>(
    system: &System<'a, F, I, O>,
    path: &'a str,
) -> Result<Vec<u8>, CommandError<'a>> {
    let mut inlet = inlet_at(system, path)?;
    read_inlet(system.alloc, &mut inlet, path)
}

/// Opens the font of the file at a path, which this is.
///
/// # Errors
/// `RefusedFile` where the font is refused.
pub(crate) fn font_in<'a, 'f>(path: &'a str, file: &'f [u8]) -> Result<Font<'f>, CommandError<'a>> {
    Font::open(file).map_err(|error| CommandError::of_run(path, path, RunError::from(error)))
}

// Puts an inlet after others, all of which are fresh.
fn push_fresh<R: Read + Drop>(inlets: &mut Vec<Inlet<R>>, reader: R) -> Result<(), AllocError>
    requires { AreFresh inlets.old.items }
    ensures { AreFresh inlets.new.items }
{
    inlets.push(Inlet::new(reader)).map_err(AllocError::from)
}

/// Opens the files at some paths for a run. None is read before all are open.
///
/// # Errors
/// `Unread` with the first path whose file cannot be opened, `Refused` if out of memory.
pub(crate) fn inlets_at<'a, F: Files, I: Read + Copy + Drop, O>(
    system: &System<'a, F, I, O>,
    paths: &[&'a str],
) -> Result<Vec<Inlet<KeepsReason<'a, Input<F::File, I>>>>, CommandError<'a>>
    ensures { IfOk result (λ inlets. AreFresh inlets.items) }
{
    let mut inlets = Vec::new(system.alloc);
    for &path in paths {
        let file = source(system, path)?;
        push_fresh(&mut inlets, file)?;
    }
    Ok(inlets)
}
