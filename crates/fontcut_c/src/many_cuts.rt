//! The cuts of a font for many requests, measured, and written end to end to the caller's room.
ghost use Rattle.std.specs.Prelude.{◌≡◌, ◌<◌, ◌≤◌, ◌++◌, ◌∷◌, [], IfOk, MatchResult, None, OnOk, Some, length, map, true};
ghost use Rattle.std.specs.List.{concat, list_all};
ghost use Rattle.std.specs.Option.{option_map};
ghost use Rattle.font_file.specs.Font.{font_fault};
ghost use Rattle.font_subset.specs.CutOfKind.{opened_font_cut};
ghost use Rattle.font_subset.specs.KeptGlyphs.{asked, glyphs_wanted};
ghost use Rattle.fontcut_c.specs.ManyCuts.{AcceptsAll, AreCutsInRoom, AreInRoom, AreSmallFiles, IsFirstLarge, RefusesOne, RefusesSubsets, size_of_all};
ghost use Rattle.fontcut_c.specs.Inside.{RefusesAll, RefusesCuts, RefusesFiles, cut_of_set, wished_cut, files_of};
ghost use Rattle.fontcut_c.specs.Requests.{asked_at, asked_by, has_checked, is_like, codes_of_ranges};

use crate::caller_room::fill_at;
use crate::cutting::{check_request, opened, opened_to_cut};
use crate::refusal::Refusal;
use crate::requests::Request;
use crate::wanted_set::{WantedSet, source_of, wanted_set};
use font_file::Font;
use font_subset::{CutOfKind, FontOfKind, FontToCut};
use font_theory::Kind;
use font_write::{Source, measured};
use sfnt_bytes::NoMemory;
use std::alloc::Global;

/// The index of a request, and why it is refused. A refusal that is of none has the index 0.
pub(crate) type RefusedAt = (u64, Refusal);

// Tells the first request that an accepted font refuses, and why.
fn check_requests(font: &Font<'_>, requests: &[Request<'_>]) -> Result<(), RefusedAt>
    requires { font_fault font.now ≡ None }
    ensures { let all = map asked_by requests.now in MatchResult result (λ _. AcceptsAll font.now all)
        (λ at. RefusesOne font.now all at.0 at.1) }
{
    for index in 0..requests.len() {
        match check_request(font, &requests[index]) {
            Ok(()) => {}
            Err(refusal) => return Err((index as u64, refusal)),
        }
    }
    Ok(())
}

// Opens a font of which something is asked by requests, or returns the first of what refuses that.
fn opened_for_requests<'a>(
    flags: u32,
    file: &'a [u8],
    requests: &[Request<'_>],
) -> Result<Font<'a>, RefusedAt>
    requires { has_checked flags ≡ true → font_fault file.now ≡ None }
    ensures { let all = map asked_by requests.now in MatchResult result
        (λ font. (font ≡ file.now) × (font_fault file.now ≡ None) × AcceptsAll file.now all)
        (λ at. RefusesAll file.now all at.0 at.1) }
{
    let font = match opened(flags, file) {
        Ok(font) => font,
        Err(error) => return Err((0, Refusal::Font(error))),
    };
    check_requests(&font, requests)?;
    Ok(font)
}

// Puts what one request asks of an opened font after what others ask of it.
fn push_set(
    alloc: Global,
    font: &FontToCut<'_, '_>,
    request: &Request<'_>,
    sets: &mut Vec<WantedSet>,
) -> Result<(), NoMemory>
    ensures { OnOk result (map (cut_of_set font.now) sets.new.items ≡ map (cut_of_set font.now) sets.old.items
        ++ wished_cut font.now (asked_by request.now) ∷ []) }
{
    sets.push(wanted_set(alloc, font, request)?)
        .map_err(|_| NoMemory)
}

// Returns what each request asks of an opened font.
fn sets_in(
    alloc: Global,
    font: &FontToCut<'_, '_>,
    requests: &[Request<'_>],
) -> Result<Vec<WantedSet>, NoMemory>
    ensures { IfOk result (λ sets. map (cut_of_set font.now) sets.items
        ≡ map (wished_cut font.now) (map asked_by requests.now)) }
{
    let mut sets = Vec::new(alloc);
    for index in 0..requests.len() {
        push_set(alloc, font, &requests[index], &mut sets)?;
    }
    Ok(sets)
}

// Returns what the cut of a font for each request is made of, of the kind that it was opened for.
fn sources_of<'f, 'a>(
    alloc: Global,
    font: &'f FontOfKind<'f, 'a>,
    sets: &'f [WantedSet],
) -> Result<Vec<CutOfKind<'f, 'a>>, NoMemory>
    ensures { IfOk result (λ sources. sources.items ≡ map (λ set. (
      font.entry.now.0,
      (font.entry.now.1, asked (Some set.codes) (option_map (λ v. v.items) set.numbers)),
    )) sets.entry.now) }
{
    let mut sources = Vec::new(alloc);
    for set in sets {
        let source = source_of(alloc, font, set)?;
        sources.push(source).map_err(|_| NoMemory)?;
    }
    Ok(sources)
}

// Returns how many bytes the files of all sources have, or the length of the first that is too large.
fn measured_all<S: Source>(sources: &[S]) -> Result<u64, u64>
    ensures { let files = files_of S.content_of sources.now in
        MatchResult result (λ size. AreSmallFiles files × (size ≡ size_of_all files)) (IsFirstLarge files) }
{
    let mut total: u64 = 0;
    for index in 0..sources.len() {
        let size = measured(&sources[index])?;
        total = total.saturating_add(size.bytes);
    }
    Ok(total)
}

// Writes the files of all sources end to end to the front of room that is large enough, and their lengths to
// sizes. It asks for no memory. Returns the sum of the lengths.
fn put_all<S: Source>(sources: &[S], out: &mut [u8], sizes: &mut [u64]) -> u64
    requires small { AreSmallFiles (files_of S.content_of sources.now) }
    requires room { length (concat (files_of S.content_of sources.now)) ≤ length out.old }
    requires places { length sizes.old ≡ length sources.now }
    ensures { AreInRoom (files_of S.content_of sources.now) out.old out.new sizes.new result }
{
    let mut at = 0;
    for index in 0..sources.len() {
        let size = fill_at(&sources[index], at, out);
        sizes[index] = size as u64;
        at += size;
    }
    at as u64
}

// Writes the files of all sources end to end to the front of room, and their lengths to sizes, and returns the
// sum of the lengths. It asks for no memory.
fn write_all<S: Source>(sources: &[S], out: &mut [u8], sizes: &mut [u64]) -> Result<u64, Refusal>
    requires { length sizes.old ≡ length sources.now }
    ensures { let files = files_of S.content_of sources.now in
        MatchResult result (AreInRoom files out.old out.new sizes.new)
        (λ refusal. (out.new ≡ out.old) × (sizes.new ≡ sizes.old)
        × RefusesFiles files (length out.old) refusal) }
{
    let total = measured_all(sources).map_err(Refusal::TooLarge)?;
    if (out.len() as u64) < total {
        return Err(Refusal::SmallRoom(total));
    }
    Ok(put_all(sources, out, sizes))
}

// Writes the cuts of an opened font for all requests, of a kind. The font is opened for the kind and its links are read
// once, and all memory is asked for before the first byte is written.
fn write_cuts(
    alloc: Global,
    kind: Kind,
    font: &Font<'_>,
    requests: &[Request<'_>],
    out: &mut [u8],
    sizes: &mut [u64],
) -> Result<u64, Refusal>
    requires accepted { font_fault font.now ≡ None }
    requires all { AcceptsAll font.now (map asked_by requests.now) }
    requires some { 0 < length requests.now }
    requires alike { let all = map asked_by requests.now in list_all (is_like (asked_at all 0)) all ≡ true }
    requires places { length sizes.old ≡ length requests.now }
    ensures { let all = map asked_by requests.now in
        MatchResult result (AreCutsInRoom kind font.now all out.old out.new sizes.new)
        (λ refusal. (out.new ≡ out.old) × (sizes.new ≡ sizes.old)
        × RefusesCuts kind font.now all (length out.old) refusal) }
{
    let opened = opened_to_cut(alloc, kind, font, &requests[0])?;
    let sets = sets_in(alloc, &opened, requests)?;
    let sources = sources_of(alloc, opened.font(), sets.as_slice())?;
    write_all(sources.as_slice(), out, sizes)
}

/// Writes the cuts of a font for all requests, of a kind, end to end to the front of room, and their lengths to sizes,
/// and returns the sum of the lengths.
pub(crate) fn cuts_to(
    alloc: Global,
    kind: Kind,
    file: &[u8],
    requests: &[Request<'_>],
    out: &mut [u8],
    sizes: &mut [u64],
) -> Result<u64, RefusedAt>
    requires checked { has_checked (asked_at (map asked_by requests.now) 0).flags ≡ true → font_fault file.now ≡ None }
    requires some { 0 < length requests.now }
    requires alike { let all = map asked_by requests.now in list_all (is_like (asked_at all 0)) all ≡ true }
    requires places { length sizes.old ≡ length requests.now }
    ensures { let all = map asked_by requests.now in
        MatchResult result (AreCutsInRoom kind file.now all out.old out.new sizes.new)
        (λ at. (out.new ≡ out.old) × (sizes.new ≡ sizes.old)
        × RefusesSubsets kind file.now all (length out.old) at.0 at.1) }
{
    let font = opened_for_requests(requests[0].flags, file, requests)?;
    match write_cuts(alloc, kind, &font, requests, out, sizes) {
        Ok(size) => Ok(size),
        Err(refusal) => Err((0, refusal)),
    }
}
