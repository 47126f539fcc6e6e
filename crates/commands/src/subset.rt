//! `subset`: the cut of a font for the codes and the glyphs that are wanted.
ghost use Rattle.std.specs.Prelude.{◌≡◌, ◌≤◌, Err, None, IfOk, OnOk, length, nat_le, option_copied, true};
ghost use Rattle.std.specs.List.{find};
ghost use Rattle.sfnt_bytes.specs.Memory.{IsRefused};
ghost use Rattle.font_subset.specs.CutOfFont.{full_cut};
ghost use Rattle.sfnt_bytes.specs.declared.directory.TheConstants.{MAX_FILE};
ghost use Rattle.font_file.specs.Font.{font_fault};
ghost use Rattle.codes.specs.Wanted.{member};
ghost use Rattle.streams.specs.Outlet.{IsFlushed, fresh_of};
ghost use Rattle.streams.specs.Inlet.{inlet_fresh_of};
ghost use Rattle.commands.specs.Run.{HasCut, HasCutIn, RefusesCut, RefusesCutIn, SendsCut, SendsText, codes_request, requested_cut, got, requested, stray_number};

use crate::cut_request::CutRequest;
use crate::run_error::RunError;
use codes::Wanted;
use font_file::Font;
use font_subset::{FontToCut, cut_of_kind_into, keeps_layout, recall_accepted};
use font_theory::Kind;
use sfnt_bytes::Memory;
use std::io::Read;
use streams::{Flushes, Inlet, Outlet};

// Finds the first number that is not below a count.
fn first_past(count: u16, numbers: &[u16]) -> Option<u16>
    ensures { result ≡ find (λ g. nat_le count g) numbers.now }
{
    for number in numbers {
        if count <= *number {
            return Some(*number);
        }
    }
    None
}

// Finds the first number that is no glyph of a font.
fn stray_in(font: &Font<'_>, numbers: Option<&[u16]>) -> Option<u16>
    ensures { result ≡ stray_number font.now (option_copied numbers.entry) }
{
    let count = font.tables().glyph_count();
    match numbers {
        Some(numbers) => first_past(count, numbers),
        None => None,
    }
}

/// Sends the cut of an opened font for what is asked, and returns the size of the cut in bytes.
///
/// # Errors
///
/// `NoGlyph` with the first number that is no glyph of the font, `Memory` if out of memory, `Font` where the font is
/// refused for cuts of the kind, and `TooLarge` where its cut has more bytes than a file may have: then nothing was sent.
/// `Write` where the writer fails.
pub fn run_subset_of_font<W: Flushes, A: Memory + Copy>(
    alloc: A,
    font: &Font<'_>,
    request: &CutRequest<'_, A>,
    outlet: &mut Outlet<W>,
) -> Result<u64, RunError>
    requires { fresh_of outlet.old ≡ true }
    ensures sends { SendsCut W.contents W.held (requested request.now) font.now outlet.old outlet.new result }
    ensures memory { result ≡ Err RunError.Memory → IsRefused A.refuses }
{
    recall_accepted(font);
    if let Some(number) = stray_in(font, request.glyphs) {
        return Err(RunError::NoGlyph(number));
    }
    let opened = FontToCut::open(alloc, request.kind, request.closes, font)?;
    let size = cut_of_kind_into(alloc, &opened, Some(request.codes), request.glyphs, outlet)?;
    outlet.finish()?;
    Ok(size)
}

/// Reads a font to its end, sends its cut for what is asked, and returns the size of the cut in bytes.
///
/// # Errors
///
/// `Read` where the reader fails, `Memory` if out of memory, `Font` where the font is refused, `NoGlyph` with the first
/// number that is no glyph of the font, and `TooLarge` where its cut has more bytes than a file may have: then nothing was
/// sent. `Write` where the writer fails. A number is looked at after the font as such, and before what cuts of the kind
/// read of it besides.
pub fn run_subset_of_request<R: Read, W: Flushes, A: Memory + Copy>(
    alloc: A,
    request: &CutRequest<'_, A>,
    inlet: &mut Inlet<R>,
    outlet: &mut Outlet<W>,
) -> Result<u64, RunError>
    requires inlet { inlet_fresh_of inlet.old ≡ true }
    requires outlet { fresh_of outlet.old ≡ true }
    ensures sent { SendsText R.remaining W.contents (HasCutIn (requested request.now))
        (requested_cut (requested request.now))
        (RefusesCutIn (requested request.now) R.remaining inlet.old)
        inlet.old inlet.new outlet.old outlet.new result }
    ensures flushed { OnOk result (IsFlushed W.held outlet.new) }
    ensures size { IfOk result (λ size. (size ≤ MAX_FILE) × got R.remaining inlet.old
        (λ file. size ≡ length (requested_cut (requested request.now) file))) }
    ensures memory { result ≡ Err RunError.Memory → IsRefused A.refuses }
{
    let file = inlet.read_all(alloc)?;
    let font = Font::open(&file)?;
    run_subset_of_font(alloc, &font, request, outlet)
}

/// Reads a font to its end, sends its cut of a kind for the codes that are wanted, and returns the size of the cut
/// in bytes. Layout and variable cuts have all glyphs that links of `GSUB` lead to.
///
/// # Errors
///
/// `Read` where the reader fails, `Memory` if out of memory, `Font` where the font is refused, and
/// `TooLarge` where its cut has more bytes than a file may have: then nothing was sent. `Write` where
/// the writer fails.
pub fn run_subset_of_kind<R: Read, W: Flushes, A: Memory + Copy>(
    alloc: A,
    kind: Kind,
    inlet: &mut Inlet<R>,
    wanted: &Wanted<A>,
    outlet: &mut Outlet<W>,
) -> Result<u64, RunError>
    requires inlet { inlet_fresh_of inlet.old ≡ true }
    requires outlet { fresh_of outlet.old ≡ true }
    ensures sent { let r = codes_request kind (member wanted.now) in
        SendsText R.remaining W.contents (HasCutIn r) (requested_cut r) (RefusesCutIn r R.remaining inlet.old)
        inlet.old inlet.new outlet.old outlet.new result }
    ensures flushed { OnOk result (IsFlushed W.held outlet.new) }
    ensures size { IfOk result (λ size. (size ≤ MAX_FILE) × got R.remaining inlet.old
        (λ file. size ≡ length (requested_cut (codes_request kind (member wanted.now)) file))) }
    ensures memory { result ≡ Err RunError.Memory → IsRefused A.refuses }
{
    let request = CutRequest {
        kind,
        closes: keeps_layout(kind),
        codes: wanted,
        glyphs: Some(&[]),
    };
    run_subset_of_request(alloc, &request, inlet, outlet)
}

/// Reads a font to its end, sends its cut for the codes that are wanted, and returns the size of the cut
/// in bytes.
///
/// # Errors
///
/// `Read` where the reader fails, `Memory` if out of memory, `Font` where the font is refused, and
/// `TooLarge` where its cut has more bytes than a file may have: then nothing was sent. `Write` where
/// the writer fails.
pub fn run_subset<R: Read, W: Flushes, A: Memory + Copy>(
    alloc: A,
    inlet: &mut Inlet<R>,
    wanted: &Wanted<A>,
    outlet: &mut Outlet<W>,
) -> Result<u64, RunError>
    requires inlet { inlet_fresh_of inlet.old ≡ true }
    requires outlet { fresh_of outlet.old ≡ true }
    ensures sent { SendsText R.remaining W.contents (HasCut (member wanted.now))
        (λ file. full_cut file (member wanted.now))
        (RefusesCut R.remaining inlet.old (member wanted.now))
        inlet.old inlet.new outlet.old outlet.new result }
    ensures flushed { OnOk result (IsFlushed W.held outlet.new) }
    ensures size { IfOk result (λ size. (size ≤ MAX_FILE) × got R.remaining inlet.old
        (λ file. size ≡ length (full_cut file (member wanted.now)))) }
    ensures memory { result ≡ Err RunError.Memory → IsRefused A.refuses }
{
    run_subset_of_kind(alloc, Kind::Full, inlet, wanted, outlet)
}
