//! The items of `font_cut` for cuts and joins of each kind.
ghost use Rattle.std.specs.Prelude.{◌≡◌, true};
ghost use Rattle.streams.specs.Outlet.{fresh_of};

use font_cut::{
    CutError, CutForm, CutIntoError, Font, FontOfKind, FontToCut, JoinAllError, JoinAllIntoError,
    JoinError, Kind, NoMemory, OpenError, Outlet, Wanted, belongs, cut_of_kind, cut_of_kind_into,
    form_of_kind, is_cut_of, is_of_kind, join_all_into, join_all_of_kind, join_all_of_kind_into,
    join_of_kind, keeps_layout, kept_glyphs, numbers_of,
};
use std::alloc::Global;
use std::io::Write;

/// Opens a font for cuts of a kind, and looks at it.
///
/// # Errors
/// That of the call that opens it.
pub fn opened_font(alloc: Global, kind: Kind, font: &Font<'_>) -> Result<bool, OpenError> {
    let opened: FontOfKind<'_, '_> = FontOfKind::open(alloc, kind, font)?;
    let form: Result<CutForm, NoMemory> = form_of_kind(alloc, &opened);
    let is: Result<bool, NoMemory> = is_of_kind(alloc, &opened);
    let kept: Result<Vec<u16>, NoMemory> = kept_glyphs(alloc, &opened);
    let known: Kind = opened.kind();
    Ok(form.is_ok() && is.is_ok() && kept.is_ok() && keeps_layout(known))
}

/// Tells whether a font is a full cut of another, and of itself.
///
/// # Errors
/// `NoMemory` if out of memory.
pub fn belonging(alloc: Global, cut: &Font<'_>, font: &Font<'_>) -> Result<bool, NoMemory> {
    let full: FontOfKind<'_, '_> = FontOfKind::full(font);
    let is_own: bool = belongs(alloc, &full, &full)?;
    let is: bool = is_cut_of(alloc, cut, font)?;
    Ok(is && is_own)
}

/// Opens a font to be cut, and lists the numbers that its cut for some codes has to be asked for.
///
/// # Errors
/// That of the call that opens it.
pub fn numbers_to_ask_for(
    alloc: Global,
    kind: Kind,
    font: &Font<'_>,
    wanted: &Wanted,
) -> Result<usize, OpenError> {
    let opened: FontToCut<'_, '_> = FontToCut::open(alloc, kind, true, font)?;
    let closure: Result<Vec<u16>, NoMemory> = opened.closure(alloc, Some(wanted), &[]);
    let _is_listed: bool = closure.is_ok();
    match opened.numbers(alloc, Some(wanted), Some(&[])) {
        Ok(listed) => {
            let numbers: Option<&[u16]> = numbers_of(&listed);
            Ok(numbers.unwrap_or(&[]).len())
        }
        Err(NoMemory) => Ok(0),
    }
}

/// Cuts an opened font.
///
/// # Errors
/// That of the cut.
pub fn cut_of_opened(
    alloc: Global,
    font: &FontToCut<'_, '_>,
    wanted: &Wanted,
) -> Result<Vec<u8>, CutError> {
    let made: Result<Vec<u8>, CutError> = cut_of_kind(alloc, font, Some(wanted), None);
    made
}

/// Sends the cut of an opened font.
///
/// # Errors
/// That of the cut.
pub fn sent_cut<W: Write>(
    alloc: Global,
    font: &FontToCut<'_, '_>,
    wanted: &Wanted,
    out: &mut Outlet<W>,
) -> Result<u64, CutIntoError>
    requires { fresh_of out.old ≡ true }
{
    let size: Result<u64, CutIntoError> = cut_of_kind_into(alloc, font, Some(wanted), None, out);
    size
}

/// Joins cuts of a kind.
///
/// # Errors
/// That of the join of two.
pub fn joins_of_kind(
    alloc: Global,
    kind: Kind,
    x: &[u8],
    y: &[u8],
    files: &[Vec<u8>],
) -> Result<Vec<u8>, JoinError> {
    let all: Result<Vec<u8>, JoinAllError> = join_all_of_kind(alloc, kind, files);
    let _is_joined: bool = all.is_ok();
    let two: Result<Vec<u8>, JoinError> = join_of_kind(alloc, kind, x, y);
    two
}

/// Sends the join of cuts of a kind.
///
/// # Errors
/// That of the join.
pub fn sent_join<W: Write>(
    alloc: Global,
    kind: Kind,
    files: &[Vec<u8>],
    out: &mut Outlet<W>,
) -> Result<u64, JoinAllIntoError>
    requires { fresh_of out.old ≡ true }
{
    let size: Result<u64, JoinAllIntoError> = join_all_of_kind_into(alloc, kind, files, out);
    size
}

/// Sends the join of full cuts.
///
/// # Errors
/// That of the join.
pub fn sent_full_join<W: Write>(
    alloc: Global,
    files: &[Vec<u8>],
    out: &mut Outlet<W>,
) -> Result<u64, JoinAllIntoError>
    requires { fresh_of out.old ≡ true }
{
    let size: Result<u64, JoinAllIntoError> = join_all_into(alloc, files, out);
    size
}
