//! The program's body: it does what a command line asks for, and answers the status.
ghost use Rattle.std.specs.Prelude.{◌≡◌, true};
ghost use Rattle.streams.specs.Outlet.{fresh_of};

use crate::belongs_command::belongs;
use crate::cut_command::subset;
use crate::demo::demo_text;
use crate::join_command::join;
use crate::messages::command_error::{CommandError, no_memory};
use crate::messages::details::{Details, NO_DETAILS};
use crate::messages::refused_file::{Seen, add_no_font, look_again, room_for_no_font};
use crate::outcome::{Outcome, answered, ended, print, report, say};
use crate::paths::inputs::{font_in, inlet_at, read_whole};
use crate::show_command::show;
use crate::slice_command::slice;
use command_line::{CutKind, Line, Listing, Parsed, Task, Verbosity, is_quiet, parse};
use commands::{run_check, run_codes, run_glyphs};
use font_coverage::sequence_lines;
use font_theory::Kind;
use program_files::{HeldFiles, Reason, System};
use std::alloc::{AllocError, Global};
use std::io::{Read, Write};
use streams::{Flushes, Outlet};

// Checks a font. What kind of file a refused one is goes to standard error: the form of standard output is fixed.
fn check<'a, F: HeldFiles, I: Read + Copy + Drop, O, W: Flushes>(
    system: &System<'a, F, I, O>,
    font: &'a str,
    verbosity: Verbosity,
    out: &mut Outlet<W>,
) -> Result<Outcome, CommandError<'a>>
    requires { fresh_of out.old ≡ true }
{
    let mut inlet = inlet_at(system, font)?;
    // Nothing asks for memory once a line is printed.
    let mut said = String::new(system.alloc);
    said.reserve(room_for_no_font(font))?;
    match run_check(system.alloc, &mut inlet, out) {
        Ok(false) if verbosity != Verbosity::Quiet => {
            add_no_font(system.files, &mut said, font)?;
            Ok(Outcome::noting(false, said))
        }
        is_clean => answered(font, is_clean),
    }
}

// Prints the variation sequences of a font.
fn sequences<'a, F: HeldFiles, I: Read + Copy + Drop, O, W: Flushes>(
    system: &System<'a, F, I, O>,
    path: &'a str,
    out: &mut Outlet<W>,
) -> Result<Outcome, CommandError<'a>>
    requires { fresh_of out.old ≡ true }
{
    let file = read_whole(system, path)?;
    let font = font_in(path, &file)?;
    let lines = sequence_lines(system.alloc, &font)?;
    print(out, lines.as_str())
}

fn codes<'a, F: HeldFiles, I: Read + Copy + Drop, O, W: Flushes>(
    system: &System<'a, F, I, O>,
    font: &'a str,
    listing: Listing,
    out: &mut Outlet<W>,
) -> Result<Outcome, CommandError<'a>>
    requires { fresh_of out.old ≡ true }
{
    if listing == Listing::Sequences {
        return sequences(system, font, out);
    }
    let mut inlet = inlet_at(system, font)?;
    let sent = if listing == Listing::Glyphs {
        run_glyphs(system.alloc, &mut inlet, out)
    } else {
        run_codes(system.alloc, &mut inlet, out)
    };
    answered(font, sent.map(|()| true))
}

fn demo<W: Flushes>(alloc: Global, out: &mut Outlet<W>) -> Result<Outcome, CommandError<'static>>
    requires { fresh_of out.old ≡ true }
{
    match demo_text(alloc) {
        Ok(text) => print(out, text.as_str()),
        Err(error) => Err(CommandError::Refused(error)),
    }
}

// Returns the kind of cuts that a line asks for.
fn kind_asked(kind: CutKind) -> Kind {
    match kind {
        CutKind::Full => Kind::Full,
        CutKind::Lean => Kind::Lean,
        CutKind::Layout => Kind::Layout,
        CutKind::Variable => Kind::Variable,
    }
}

// Does what a line asks for.
fn done<'a, F: HeldFiles, I: Read + Copy + Drop, O: Write + Copy + Drop, W: Flushes>(
    system: &System<'a, F, I, O>,
    line: &Line<'a>,
    out: &mut Outlet<W>,
) -> Result<Outcome, CommandError<'a>>
    requires { fresh_of out.old ≡ true }
{
    match &line.task {
        Task::Check { font } => check(system, font, line.verbosity, out),
        Task::Show { font } => show(system, font, line.verbosity, out),
        Task::Codes { font, listing } => codes(system, font, *listing, out),
        Task::Belongs(asked) => {
            let kind = asked.kind.map(kind_asked);
            belongs(system, kind, asked, line.verbosity, out)
        }
        Task::Subset(line) => subset(system, kind_asked(line.kind), line),
        Task::Join(line) => join(system, kind_asked(line.kind), line),
        Task::Slice(line) => slice(system, kind_asked(line.kind), line, out),
        Task::Demo => demo(system.alloc, out),
    }
}

// Returns what is known of the files of an error, where more than its first line is said.
fn seen_of<F: HeldFiles, I, O>(
    system: &System<'_, F, I, O>,
    verbosity: Verbosity,
    outcome: &Result<Outcome, CommandError<'_>>,
) -> Result<Seen, AllocError> {
    match outcome {
        Err(error) if verbosity != Verbosity::Quiet => look_again(system, error),
        _ => Ok(Seen::Nothing),
    }
}

// Says what was done or what is wrong, and what is known of that, and answers the exit status.
fn told<F: HeldFiles, I, O, V: Write>(
    system: &System<'_, F, I, O>,
    verbosity: Verbosity,
    outcome: Result<Outcome, CommandError<'_>>,
    err: &mut Outlet<V>,
) -> u8
    requires { fresh_of err.old ≡ true }
{
    let reason = system.reason.number();
    let Ok(seen) = seen_of(system, verbosity, &outcome) else {
        return report(system.alloc, err, no_memory(), NO_DETAILS);
    };
    let details = Details {
        verbosity,
        reason,
        seen,
    };
    ended(system.alloc, err, outcome, details)
}

/// Does what the arguments of a command line ask for, the program's own name not among them, and returns
/// the exit status: 0 if it is done; 1 if a file is refused or has a finding, if `belongs` says no, if `--strict` finds
/// something missing, or if out of memory; 2 for a usage error, also one in a file of wanted codes; 3 if a file cannot
/// be read or an output cannot be written.
///
/// Reports and help go to `out`, a cut or join whose OUT is `-` to the output of `system`; what is wrong, and
/// what `--report` says, to `err`.
pub fn run_on_system<'a, F, I, O, W, V>(
    system: &System<'a, F, I, O>,
    words: &'a [String],
    out: &mut Outlet<W>,
    err: &mut Outlet<V>,
) -> u8
where
    F: HeldFiles,
    I: Read + Copy + Drop,
    O: Write + Copy + Drop,
    W: Flushes,
    V: Write,
    requires out { fresh_of out.old ≡ true }
    requires err { fresh_of err.old ≡ true }
{
    let alloc = system.alloc;
    match parse(alloc, words) {
        Ok(Parsed::Line(line)) => {
            let outcome = done(system, &line, out);
            told(system, line.verbosity, outcome, err)
        }
        Ok(Parsed::InputTwice) => report(alloc, err, CommandError::InputTwice, NO_DETAILS),
        Ok(Parsed::Help(text)) => {
            let verbosity = if is_quiet(words) {
                Verbosity::Quiet
            } else {
                Verbosity::Plain
            };
            told(system, verbosity, print(out, text.as_str()), err)
        }
        Ok(Parsed::Wrong(text)) => {
            let _said = say(err, text.as_str());
            2
        }
        Err(_) => report(alloc, err, no_memory(), NO_DETAILS),
    }
}

/// Does what the arguments of a command line ask for, as [`run_on_system`] does, with the standard input and
/// the standard output of a program, and returns the status. What is wrong, and what `--report` says, goes to
/// `err`, but for the system's reasons where `out` cannot be written.
pub fn run_words<W: Flushes, V: Write>(
    rt: &HostRuntime,
    alloc: Global,
    words: &[String],
    out: &mut Outlet<W>,
    err: &mut Outlet<V>,
) -> u8
    requires out { fresh_of out.old ≡ true }
    requires err { fresh_of err.old ≡ true }
{
    let reason = Reason::new();
    let system = System {
        files: rt,
        alloc,
        input: rt.stdin(),
        output: rt.stdout(),
        reason: &reason,
    };
    run_on_system(&system, words, out, err)
}
