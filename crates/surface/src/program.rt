//! The items of `font_cmd`.
ghost use Rattle.std.specs.Prelude.{◌≡◌, true};
ghost use Rattle.commands.specs.JoinRun.{AreFresh};
ghost use Rattle.streams.specs.Inlet.{inlet_fresh_of};
ghost use Rattle.streams.specs.Outlet.{fresh_of};

use font_cmd::{Inlet, ReadError, RunError, run_check, run_join, run_show, run_subset, run_words};
use font_cut::{Outlet, Wanted};
use std::alloc::Global;
use std::io::{Read, Write};
use streams::Flushes;

/// Reads an inlet to its end.
///
/// # Errors
/// That of the read.
pub fn inlet<R: Read + Drop>(alloc: Global, reader: R) -> Result<Vec<u8>, ReadError> {
    let mut inlet: Inlet<R> = Inlet::new(reader);
    let file: Result<Vec<u8>, ReadError> = inlet.read_all(alloc);
    let _state: (bool, bool) = (inlet.is_fresh(), inlet.is_broken());
    file
}

/// Checks a file.
///
/// # Errors
/// That of the check.
pub fn checked<R: Read, W: Flushes>(
    alloc: Global,
    inlet: &mut Inlet<R>,
    out: &mut Outlet<W>,
) -> Result<bool, RunError>
    requires inlet { inlet_fresh_of inlet.old ≡ true }
    requires out { fresh_of out.old ≡ true }
{
    let is_clean: Result<bool, RunError> = run_check(alloc, inlet, out);
    is_clean
}

/// Shows a font.
///
/// # Errors
/// That of the call.
pub fn shown<R: Read, W: Flushes>(
    alloc: Global,
    inlet: &mut Inlet<R>,
    out: &mut Outlet<W>,
) -> Result<(), RunError>
    requires inlet { inlet_fresh_of inlet.old ≡ true }
    requires out { fresh_of out.old ≡ true }
{
    let shown: Result<(), RunError> = run_show(alloc, inlet, out);
    shown
}

/// Cuts a font.
///
/// # Errors
/// That of the cut.
pub fn cut_of_inlet<R: Read, W: Flushes>(
    alloc: Global,
    inlet: &mut Inlet<R>,
    wanted: &Wanted,
    out: &mut Outlet<W>,
) -> Result<u64, RunError>
    requires inlet { inlet_fresh_of inlet.old ≡ true }
    requires out { fresh_of out.old ≡ true }
{
    let size: Result<u64, RunError> = run_subset(alloc, inlet, wanted, out);
    size
}

/// Joins files.
///
/// # Errors
/// That of the join.
pub fn join_of_files<R: Read, W: Flushes>(
    alloc: Global,
    inlets: &mut [Inlet<R>],
    out: &mut Outlet<W>,
) -> Result<u64, RunError>
    requires inlets { AreFresh inlets.old }
    requires out { fresh_of out.old ≡ true }
{
    let size: Result<u64, RunError> = run_join(alloc, inlets, out);
    size
}

/// Does what the arguments of a command line ask for.
pub fn program_of_words<W: Flushes, V: Write>(
    rt: &HostRuntime,
    alloc: Global,
    words: &[String],
    out: &mut Outlet<W>,
    err: &mut Outlet<V>,
) -> u8
    requires out { fresh_of out.old ≡ true }
    requires err { fresh_of err.old ≡ true }
{
    let status: u8 = run_words(rt, alloc, words, out, err);
    status
}
