//! The command `join`: the join of the files of a line.
ghost use Rattle.std.specs.Prelude.{◌≡◌, true};
ghost use Rattle.commands.specs.JoinRun.{AreFresh};

use crate::messages::command_error::{CommandError, refused_join};
use crate::outcome::Outcome;
use crate::paths::inputs::inlets_at;
use crate::paths::kept_font::{keep_forgotten, keep_from_join};
use crate::paths::locked_file::locked_out;
use crate::paths::output::{outlet, packed_out, placed};
use command_line::Join;
use commands::{RunError, run_join_of_kind};
use font_theory::Kind;
use program_files::{HeldFiles, System};
use std::io::{Read, Write};
use streams::Inlet;

// Returns the path of the inlet whose reader has failed.
fn broken_path<'a, R: Read>(inlets: &[Inlet<R>], paths: &[&'a str]) -> Option<&'a str> {
    for (inlet, &path) in inlets.iter().zip(paths) {
        if inlet.is_broken() {
            return Some(path);
        }
    }
    None
}

// Returns why a join is not done.
fn join_error<'a, R: Read>(
    kind: Kind,
    line: &Join<'a>,
    inlets: &[Inlet<R>],
    error: RunError,
) -> CommandError<'a> {
    match error {
        RunError::Join(_) => refused_join(kind, &line.files, error),
        error => {
            let font = broken_path(inlets, &line.files).unwrap_or("");
            CommandError::of_run(font, line.out, error)
        }
    }
}

// Sends the join of what inlets read to OUT.
fn send_join<'a, F: HeldFiles, I, O: Write + Copy + Drop, R: Read>(
    system: &System<'a, F, I, O>,
    kind: Kind,
    line: &Join<'a>,
    inlets: &mut [Inlet<R>],
) -> Result<Outcome, CommandError<'a>>
    requires { AreFresh inlets.old }
{
    let mut outlet = outlet(system, line.out)?;
    let sent = run_join_of_kind(system.alloc, kind, inlets, &mut outlet);
    sent.map_err(|error| join_error(kind, line, inlets, error))?;
    placed(system, outlet, line.out)?;
    Ok(Outcome::of(true))
}

/// Writes the join of files that are cuts of a kind. Whether OUT may be replaced is looked at after all files are
/// open; where it is one of them, no other join in place of it runs meanwhile.
///
/// # Errors
/// The first error.
pub(crate) fn join<'a, F: HeldFiles, I: Read + Copy + Drop, O: Write + Copy + Drop>(
    system: &System<'a, F, I, O>,
    kind: Kind,
    line: &Join<'a>,
) -> Result<Outcome, CommandError<'a>> {
    packed_out(line.out, line.is_forced)?;
    // It is locked until the join is at OUT.
    let _locked = locked_out(system, line)?;
    let mut inlets = inlets_at(system, &line.files)?;
    keep_forgotten(system, line)?;
    keep_from_join(system, line)?;
    send_join(system, kind, line, &mut inlets)
}
