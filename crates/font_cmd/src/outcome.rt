//! What a task comes to, and what is printed of it on standard output and standard error.
ghost use Rattle.std.specs.Prelude.{◌≡◌, true};
ghost use Rattle.streams.specs.Outlet.{fresh_of};

use crate::messages::command_error::{CommandError, no_memory};
use crate::messages::details::{Details, add_details};
use commands::RunError;
use std::alloc::{AllocError, Global};
use std::io::Write;
use streams::{Flushes, Outlet};

/// The name in the place of a path where a report cannot be written.
pub(crate) const STANDARD_OUTPUT: &str = "standard output";

// The status where a report cannot be written.
const UNWRITTEN: u8 = 3;

/// What a task comes to if nothing is wrong.
#[derive(Drop)]
pub(crate) struct Outcome {
    // Whether all is well.
    is_well: bool,
    // What is written to standard error.
    report: Option<String>,
    // Whether that was asked for, so that it is an error if it cannot be written.
    is_asked: bool,
}

impl Outcome {
    /// Returns the outcome of a task that has nothing to write to standard error.
    pub(crate) fn of(is_well: bool) -> Outcome {
        Outcome {
            is_well,
            report: None,
            is_asked: false,
        }
    }

    /// Returns the outcome of a task that writes to standard error a report that was asked for.
    pub(crate) fn saying(is_well: bool, report: String) -> Outcome {
        Outcome {
            is_well,
            report: Some(report),
            is_asked: true,
        }
    }

    /// Returns the outcome of a task that writes notes to standard error.
    pub(crate) fn noting(is_well: bool, notes: String) -> Outcome {
        let report = if notes.is_empty() { None } else { Some(notes) };
        Outcome {
            is_well,
            report,
            is_asked: false,
        }
    }

    fn status(&self) -> u8 {
        if self.is_well { 0 } else { 1 }
    }
}

/// Prints a text on standard error, and returns whether it was written.
pub(crate) fn say<V: Write>(err: &mut Outlet<V>, text: &str) -> bool
    requires { fresh_of err.old ≡ true }
{
    err.put(text.as_bytes()).is_ok()
}

// Returns the lines that say what is wrong, and what is known of it.
fn error_text(
    alloc: Global,
    error: &CommandError<'_>,
    details: Details,
) -> Result<String, AllocError> {
    let mut text = format!(in alloc; "fontcut: {error}\n")?;
    add_details(alloc, &mut text, error, details)?;
    Ok(text)
}

/// Says what is wrong, and answers the exit status.
pub(crate) fn report<V: Write>(
    alloc: Global,
    err: &mut Outlet<V>,
    error: CommandError<'_>,
    details: Details,
) -> u8
    requires { fresh_of err.old ≡ true }
{
    match error_text(alloc, &error, details) {
        Ok(text) => {
            // That a message cannot be written changes no status.
            let _said = say(err, text.as_str());
            error.status()
        }
        Err(_) => {
            let _said = say(err, "fontcut: refused 16 no memory\n");
            no_memory().status()
        }
    }
}

/// Prints a text on standard output.
///
/// # Errors
/// `Unwritten` where that fails.
pub(crate) fn print<W: Flushes>(
    out: &mut Outlet<W>,
    text: &str,
) -> Result<Outcome, CommandError<'static>>
    requires { fresh_of out.old ≡ true }
{
    if out.put(text.as_bytes()).is_err() || out.finish().is_err() {
        return Err(CommandError::Unwritten(STANDARD_OUTPUT));
    }
    Ok(Outcome::of(true))
}

/// Prints a text on standard output after what was printed there.
///
/// # Errors
/// `Unwritten` where that fails, or has failed before.
pub(crate) fn print_more<W: Flushes>(
    out: &mut Outlet<W>,
    text: &str,
) -> Result<Outcome, CommandError<'static>> {
    // So much is not printed on one line's demand.
    let is_far = u64::from(u32::MAX) < out.written();
    if is_far || out.is_broken() || out.put(text.as_bytes()).is_err() || out.finish().is_err() {
        return Err(CommandError::Unwritten(STANDARD_OUTPUT));
    }
    Ok(Outcome::of(true))
}

/// Returns the outcome of a command that has read the file at a path and printed what it says of it.
///
/// # Errors
/// The error of the command.
pub(crate) fn answered(
    font: &str,
    is_well: Result<bool, RunError>,
) -> Result<Outcome, CommandError<'_>> {
    let is_well = is_well.map_err(|error| CommandError::of_run(font, STANDARD_OUTPUT, error))?;
    Ok(Outcome::of(is_well))
}

/// Says what was done or what is wrong, and answers the exit status.
pub(crate) fn ended<V: Write>(
    alloc: Global,
    err: &mut Outlet<V>,
    outcome: Result<Outcome, CommandError<'_>>,
    details: Details,
) -> u8
    requires { fresh_of err.old ≡ true }
{
    match outcome {
        Ok(outcome) => {
            if let Some(text) = &outcome.report {
                if !say(err, text.as_str()) && outcome.is_asked {
                    return UNWRITTEN;
                }
            }
            outcome.status()
        }
        Err(error) => report(alloc, err, error, details),
    }
}
