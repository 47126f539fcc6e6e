//! The command `belongs`: whether a file is a cut of a font, and of which kind.
ghost use Rattle.std.specs.Prelude.{◌≡◌, true};
ghost use Rattle.streams.specs.Outlet.{fresh_of};

use crate::asked::dropped_tables::without_named;
use crate::messages::command_error::CommandError;
use crate::messages::details::cut_name;
use crate::outcome::{Outcome, answered};
use crate::paths::inputs::{inlet_at, input_name, read_inlet, read_whole};
use command_line::{Belongs, Verbosity};
use commands::{RunError, run_belongs};
use font_coverage::kind_of_cut;
use font_file::Font;
use font_join::Which;
use font_texts::Shown;
use font_theory::Kind;
use program_files::{HeldFiles, System};
use std::alloc::{AllocError, Global};
use std::io::Read;
use streams::{Flushes, Inlet, Outlet};

// Returns the outcome of `belongs`. `unread` is the path of the file that could not be read, where one could not.
fn belonged<'a>(
    line: &Belongs<'a>,
    unread: &'a str,
    is_cut: Result<bool, RunError>,
) -> Result<Outcome, CommandError<'a>> {
    match is_cut {
        Err(RunError::OneOf(which, error)) => {
            let path = match which {
                Which::First => line.cut,
                Which::Second => line.font,
            };
            let error = RunError::OneOf(which, error);
            Err(CommandError::RefusedFile { path, error })
        }
        is_cut => answered(unread, is_cut),
    }
}

// Tells whether a file is a cut of another, of a kind. Both are held in memory.
fn belongs_held<'a, W: Flushes>(
    alloc: Global,
    kind: Kind,
    line: &Belongs<'a>,
    cut: &[u8],
    font: &[u8],
    out: &mut Outlet<W>,
) -> Result<Outcome, CommandError<'a>>
    requires { fresh_of out.old ≡ true }
{
    let (mut cut_inlet, mut font_inlet) = (Inlet::new(cut), Inlet::new(font));
    let is_cut = run_belongs(alloc, kind, &mut cut_inlet, &mut font_inlet, out);
    belonged(line, line.cut, is_cut)
}

// Compares a cut with its font without the tables that are to be dropped.
fn belongs_without<'a, F: HeldFiles, I: Read + Copy + Drop, O, W: Flushes>(
    system: &System<'a, F, I, O>,
    kind: Kind,
    line: &Belongs<'a>,
    out: &mut Outlet<W>,
) -> Result<Outcome, CommandError<'a>>
    requires { fresh_of out.old ≡ true }
{
    let cut = read_whole(system, line.cut)?;
    let whole = read_whole(system, line.font)?;
    let font = without_named(system.alloc, line.font, whole, &line.dropped)?;
    belongs_held(system.alloc, kind, line, &cut, &font, out)
}

// Returns the kind of which a file is a cut of another. There is none where one of them is refused.
fn kind_of_file(alloc: Global, cut: &[u8], font: &[u8]) -> Result<Option<Kind>, AllocError> {
    let (Ok(cut), Ok(font)) = (Font::open(cut), Font::open(font)) else {
        return Ok(None);
    };
    kind_of_cut(alloc, &cut, &font).map_err(|_| AllocError)
}

// Returns the line that says of which kind the cut of a line is.
fn kind_text(alloc: Global, line: &Belongs<'_>, kind: Kind) -> Result<String, AllocError> {
    let (name, cut) = (Shown(input_name(line.cut)), cut_name(kind));
    format!(in alloc; "fontcut: {name}: {cut}\n")
}

// Tells whether a file is a cut of another, of any kind, and says of which.
fn belongs_by_some<'a, W: Flushes>(
    alloc: Global,
    line: &Belongs<'a>,
    verbosity: Verbosity,
    cut: &[u8],
    font: &[u8],
    out: &mut Outlet<W>,
) -> Result<Outcome, CommandError<'a>>
    requires { fresh_of out.old ≡ true }
{
    let Some(kind) = kind_of_file(alloc, cut, font)? else {
        return belongs_held(alloc, Kind::Full, line, cut, font, out);
    };
    let said = kind_text(alloc, line, kind)?;
    let outcome = belongs_held(alloc, kind, line, cut, font, out)?;
    if verbosity == Verbosity::Quiet {
        return Ok(outcome);
    }
    Ok(Outcome::noting(true, said))
}

// Finds the kind of which a file is a cut of another, if the line names none.
fn belongs_as_any<'a, F: HeldFiles, I: Read + Copy + Drop, O, W: Flushes>(
    system: &System<'a, F, I, O>,
    line: &Belongs<'a>,
    verbosity: Verbosity,
    out: &mut Outlet<W>,
) -> Result<Outcome, CommandError<'a>>
    requires { fresh_of out.old ≡ true }
{
    let mut cut_inlet = inlet_at(system, line.cut)?;
    let mut font_inlet = inlet_at(system, line.font)?;
    let cut = read_inlet(system.alloc, &mut cut_inlet, line.cut)?;
    let font = read_inlet(system.alloc, &mut font_inlet, line.font)?;
    belongs_by_some(system.alloc, line, verbosity, &cut, &font, out)
}

/// Prints whether a file is a cut of a font, of the kind that is asked for. Where none is, a cut of any kind belongs, and
/// its kind is said.
///
/// # Errors
/// The first error.
pub(crate) fn belongs<'a, F: HeldFiles, I: Read + Copy + Drop, O, W: Flushes>(
    system: &System<'a, F, I, O>,
    kind: Option<Kind>,
    line: &Belongs<'a>,
    verbosity: Verbosity,
    out: &mut Outlet<W>,
) -> Result<Outcome, CommandError<'a>>
    requires { fresh_of out.old ≡ true }
{
    let Some(kind) = kind else {
        return belongs_as_any(system, line, verbosity, out);
    };
    if !line.dropped.is_empty() {
        return belongs_without(system, kind, line, out);
    }
    let mut cut_inlet = inlet_at(system, line.cut)?;
    let mut font_inlet = inlet_at(system, line.font)?;
    let is_cut = run_belongs(system.alloc, kind, &mut cut_inlet, &mut font_inlet, out);
    let unread = if cut_inlet.is_broken() {
        line.cut
    } else {
        line.font
    };
    belonged(line, unread, is_cut)
}
