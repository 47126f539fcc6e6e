//! The outlet to OUT, a file or standard output.
ghost use Rattle.std.specs.Prelude.{◌≡◌, IfOk, [], true};
ghost use Rattle.std.specs.Io.Buffered.{writer_buffer};
ghost use Rattle.streams.specs.Outlet.{fresh_of, writer_of};

use crate::messages::command_error::CommandError;
use command_line::STANDARD;
use program_files::{HeldFiles, OutWriter, System};
use std::io::Write;
use streams::Outlet;

/// Returns an outlet to OUT, which gathers a block of bytes for each write. Nothing is made before the first write.
///
/// # Errors
/// The error that says out of memory.
pub(crate) fn outlet<'a, 'p, F: HeldFiles, I, O: Write + Copy + Drop>(
    system: &System<'a, F, I, O>,
    path: &'p str,
) -> Result<Outlet<OutWriter<'a, F, O>>, CommandError<'p>>
    ensures { IfOk result (λ outlet. fresh_of outlet ≡ true) }
{
    let output = if path == STANDARD {
        OutWriter::standard(system)?
    } else {
        OutWriter::at(system, path)?
    };
    Ok(Outlet::new(output))
}

/// Returns the path before the ending of a packed font, where a path has one.
pub(crate) fn before_packed(path: &str) -> Option<&str> {
    let (before, ending) = path.rsplit_once('.')?;
    if ending.eq_ignore_ascii_case("woff2") || ending.eq_ignore_ascii_case("woff") {
        return Some(before);
    }
    None
}

/// Refuses an OUT with the ending of a packed font, unless that is forced.
///
/// # Errors
/// `PackedOut` where it has one.
pub(crate) fn packed_out(path: &str, is_forced: bool) -> Result<(), CommandError<'_>> {
    match before_packed(path) {
        Some(before) if !is_forced => Err(CommandError::PackedOut(before)),
        _ => Ok(()),
    }
}

/// Moves the finished file to OUT. Its outlet was flushed: its writer holds no byte back.
///
/// # Errors
/// `Unwritten` where the system refuses that.
pub(crate) fn placed<'a, 'p, F: HeldFiles, I, O: Write + Copy + Drop>(
    system: &System<'a, F, I, O>,
    outlet: Outlet<OutWriter<'a, F, O>>,
    path: &'p str,
) -> Result<(), CommandError<'p>>
    requires { writer_buffer (writer_of outlet).inner ≡ [] }
{
    match outlet.into_inner().place() {
        Ok(()) => Ok(()),
        Err(error) => {
            system.reason.keep(error);
            Err(CommandError::Unwritten(path))
        }
    }
}
