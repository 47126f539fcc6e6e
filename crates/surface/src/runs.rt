//! The items of `commands` that `font_cmd` does not pass on.
ghost use Rattle.std.specs.Prelude.{◌≡◌, true};
ghost use Rattle.commands.specs.JoinRun.{AreFresh};
ghost use Rattle.streams.specs.Inlet.{inlet_fresh_of};
ghost use Rattle.streams.specs.Outlet.{fresh_of};

use commands::{
    CutRequest, RunError, run_belongs, run_codes, run_glyphs, run_join_of_kind, run_subset_of_font,
    run_subset_of_kind, run_subset_of_request, without_tables,
};
use font_cut::{Directory, Font, Kind, Outlet, Tag, Wanted};
use std::alloc::{AllocError, Global};
use std::io::Read;
use streams::{Flushes, Inlet};

/// Tells whether a file is a cut of another.
///
/// # Errors
/// That of the run.
pub fn belonging_of_inlets<R: Read, W: Flushes>(
    alloc: Global,
    kind: Kind,
    cut: &mut Inlet<R>,
    font: &mut Inlet<R>,
    out: &mut Outlet<W>,
) -> Result<bool, RunError>
    requires cut { inlet_fresh_of cut.old ≡ true }
    requires font { inlet_fresh_of font.old ≡ true }
    requires out { fresh_of out.old ≡ true }
{
    let is: Result<bool, RunError> = run_belongs(alloc, kind, cut, font, out);
    is
}

/// Prints the codes that a font maps.
///
/// # Errors
/// That of the run.
pub fn codes_of_inlet<R: Read, W: Flushes>(
    alloc: Global,
    inlet: &mut Inlet<R>,
    out: &mut Outlet<W>,
) -> Result<(), RunError>
    requires inlet { inlet_fresh_of inlet.old ≡ true }
    requires out { fresh_of out.old ≡ true }
{
    let printed: Result<(), RunError> = run_codes(alloc, inlet, out);
    printed
}

/// Prints the codes that a font maps, with their glyphs.
///
/// # Errors
/// That of the run.
pub fn glyphs_of_inlet<R: Read, W: Flushes>(
    alloc: Global,
    inlet: &mut Inlet<R>,
    out: &mut Outlet<W>,
) -> Result<(), RunError>
    requires inlet { inlet_fresh_of inlet.old ≡ true }
    requires out { fresh_of out.old ≡ true }
{
    let printed: Result<(), RunError> = run_glyphs(alloc, inlet, out);
    printed
}

/// Joins files that are cuts of a kind.
///
/// # Errors
/// That of the join.
pub fn join_of_kind_of_files<R: Read, W: Flushes>(
    alloc: Global,
    kind: Kind,
    inlets: &mut [Inlet<R>],
    out: &mut Outlet<W>,
) -> Result<u64, RunError>
    requires inlets { AreFresh inlets.old }
    requires out { fresh_of out.old ≡ true }
{
    let size: Result<u64, RunError> = run_join_of_kind(alloc, kind, inlets, out);
    size
}

/// Cuts an opened font for what is asked.
///
/// # Errors
/// That of the cut.
pub fn cut_of_font<W: Flushes>(
    alloc: Global,
    font: &Font<'_>,
    request: &CutRequest<'_>,
    out: &mut Outlet<W>,
) -> Result<u64, RunError>
    requires { fresh_of out.old ≡ true }
{
    let size: Result<u64, RunError> = run_subset_of_font(alloc, font, request, out);
    size
}

/// Cuts a font for codes and glyphs.
///
/// # Errors
/// That of the cut.
pub fn cut_of_request<R: Read, W: Flushes>(
    alloc: Global,
    kind: Kind,
    codes: &Wanted,
    inlet: &mut Inlet<R>,
    out: &mut Outlet<W>,
) -> Result<u64, RunError>
    requires inlet { inlet_fresh_of inlet.old ≡ true }
    requires out { fresh_of out.old ≡ true }
{
    let request = CutRequest {
        kind,
        closes: true,
        codes,
        glyphs: None,
    };
    let size: Result<u64, RunError> = run_subset_of_request(alloc, &request, inlet, out);
    size
}

/// Cuts a font for codes.
///
/// # Errors
/// That of the cut.
pub fn cut_of_kind_of_inlet<R: Read, W: Flushes>(
    alloc: Global,
    kind: Kind,
    inlet: &mut Inlet<R>,
    wanted: &Wanted,
    out: &mut Outlet<W>,
) -> Result<u64, RunError>
    requires inlet { inlet_fresh_of inlet.old ≡ true }
    requires out { fresh_of out.old ≡ true }
{
    let size: Result<u64, RunError> = run_subset_of_kind(alloc, kind, inlet, wanted, out);
    size
}

/// Drops tables of a file.
///
/// # Errors
/// `AllocError` if out of memory.
pub fn dropped_tables(
    alloc: Global,
    directory: &Directory<'_>,
    tags: &[Tag],
) -> Result<Vec<u8>, AllocError> {
    let left: Result<Vec<u8>, AllocError> = without_tables(alloc, directory, tags);
    left
}
