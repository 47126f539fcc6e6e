//! The calls for C and the languages that call it: each takes bytes in memory, and answers a status and
//! what belongs to it.
#![tactic(auto)]

mod answer;
mod belonging;
mod caller_room;
mod cutting;
mod errors;
mod filled;
mod glyph_metrics;
mod glyph_sets;
mod glyphs;
mod info;
mod joining;
mod kind;
mod losses;
mod many_cuts;
mod mapped;
mod refusal;
mod requests;
mod text;
mod text_ranges;
mod text_variants;
mod wanted_ranges;
mod wanted_set;

ghost use Rattle.std.specs.Prelude.{◌≡◌, ◌≢◌, IfErr, None, length, map, true};
ghost use Rattle.std.specs.List.{concat};
ghost use Rattle.commands.specs.Run.{HoldsOfFont, requested_cut};
ghost use Rattle.font_file.specs.Font.{font_fault};
ghost use Rattle.font_theory.specs.Kinds.{format_of};
ghost use Rattle.fontcut_c.specs.Answers.{IsInRoom, check_answer, size_answer, stepped_answer};
ghost use Rattle.fontcut_c.specs.ManyCuts.{AnswersSubsets, cuts_for};
ghost use Rattle.fontcut_c.specs.Cutting.{AnswersSubset};
ghost use Rattle.fontcut_c.specs.Forms.{AnswersBelonging, AnswersForm};
ghost use Rattle.fontcut_c.specs.GlyphSets.{HasShaped, AnswersClosure, AnswersKept, IsForClosedCut, closure_of, kept_of};
ghost use Rattle.fontcut_c.specs.Glyphs.{AnswersGlyphs, AnswersLookUp, AnswersMetrics, glyphs_of_codes, metrics_of};
ghost use Rattle.fontcut_c.specs.Info.{info_of};
ghost use Rattle.fontcut_c.specs.Joining.{AnswersJoin, IsJoinInRoom};
ghost use Rattle.fontcut_c.specs.KindNumbers.{AnswersInKind, HoldsInKind};
ghost use Rattle.fontcut_c.specs.Lost.{AnswersLost};
ghost use Rattle.fontcut_c.specs.Mapped.{AnswersCodes};
ghost use Rattle.fontcut_c.specs.Requests.{AnswersRead, HoldsRead, asked_at, asked_by, has_checked, read, read_all, request_of};
ghost use Rattle.fontcut_c.specs.Text.{AnswersText, NamesFile, answer_text, font_fault_text, refusal_text};
ghost use Rattle.fontcut_c.specs.TextRanges.{AnswersNeeded, AnswersRanges};
ghost use Rattle.fontcut_c.specs.Variants.{AnswersVariants};

pub use crate::answer::Answer;
use crate::belonging::{belonging_answer, form_answer};
use crate::cutting::cut_to;
pub use crate::glyph_metrics::Metric;
use crate::glyph_metrics::metrics_to;
use crate::glyph_sets::{closure_to, kept_to};
use crate::glyphs::glyphs_to;
pub use crate::info::Info;
use crate::info::info_in;
use crate::joining::join_to;
use crate::kind::kind_of_number;
use crate::losses::lost_to;
use crate::many_cuts::{RefusedAt, cuts_to};
use crate::mapped::codes_to;
pub use crate::refusal::Refusal;
pub use crate::requests::Request;
use crate::requests::read_requests;
use crate::text::text_to;
use crate::text_ranges::{listed_to, needed_to};
use crate::text_variants::variants_to;
pub use codes::CodeRange;
pub use font_coverage::Losses;
use font_file::Font;
use std::alloc::Global;

/// Says whether a font is accepted: status 0, or the first refusal that applies, whose text [`fontcut_refusal_text`]
/// writes.
#[unsafe(no_mangle)]
#[tactic(auto, unfolding(crate::specs::Errors::error_of, crate::specs::Errors::font_error_of, crate::specs::Errors::join_error_of, crate::specs::Text::refusal_text))]
pub extern "C" fn fontcut_check(font: &[u8]) -> Answer
    ensures exact { result ≡ check_answer (font_fault font.now) }
    ensures text { refusal_text result ≡ font_fault_text (font_fault font.now) }
{
    match Font::open(font) {
        Ok(_) => Answer::done(0),
        Err(error) => Refusal::Font(error).answer(),
    }
}

// Returns the answer of a call that writes this much, or is refused: then its text is that of the refusal.
#[tactic(auto, unfolding(crate::specs::Errors::error_of, crate::specs::Errors::font_error_of, crate::specs::Errors::join_error_of, crate::specs::Text::refusal_text))]
fn answered(outcome: Result<u64, Refusal>) -> Answer
    ensures exact { result ≡ size_answer outcome }
    ensures text { IfErr outcome NamesFile → refusal_text result ≡ answer_text outcome }
{
    match outcome {
        Ok(size) => Answer::done(size),
        Err(refusal) => refusal.answer(),
    }
}

// Returns the answer of a call for many requests that writes this much, or is refused at one of them.
fn answered_at(outcome: Result<u64, RefusedAt>) -> Answer
    ensures { result ≡ stepped_answer outcome }
{
    match outcome {
        Ok(size) => Answer::done(size),
        Err((step, refusal)) => refusal.answer().at(step),
    }
}

/// Writes the cut of a font that is asked for to the front of `out`. A refusal leaves `out` as it was. Before all else a
/// request that is not of this version is answered by 105, a number that is no kind's by 101, and full cuts for glyphs by
/// 104.
#[unsafe(no_mangle)]
pub extern "C" fn fontcut_subset(
    alloc: Global,
    request: &Request<'_>,
    font: &[u8],
    out: &mut [u8],
) -> Answer
    requires { has_checked (asked_by request.now).flags ≡ true → font_fault font.now ≡ None }
    ensures exact { let a = asked_by request.now in AnswersRead (read a) result
        (λ k. AnswersSubset k font.now a out.old out.new result) }
    ensures done { let a = asked_by request.now in result.status ≡ 0 → HoldsRead (read a)
        (λ k. IsInRoom (requested_cut (request_of k a) font.now) out.old out.new result.size) }
    ensures holds { let a = asked_by request.now in result.status ≡ 0 → HoldsRead (read a)
        (λ k. HoldsOfFont (request_of k a) font.now) }
    ensures untouched { result.status ≢ 0 → out.new ≡ out.old }
{
    match request.read() {
        Ok(kind) => answered(cut_to(alloc, kind, font, request, out)),
        Err(unread) => unread,
    }
}

/// Writes the cuts of a font for many requests, which differ in their ranges and glyphs alone, to the front of `out`, end
/// to end in the order of the requests, and the length of each to `sizes`. A refusal leaves `out` and `sizes` as they
/// were; where it is of a request, `step` is its index. Before all else 103 answers that there is no request, that they
/// differ, or that `sizes` has another number of places than there are requests, and then 105, 101 and 104 as for
/// [`fontcut_subset`].
#[unsafe(no_mangle)]
pub extern "C" fn fontcut_subsets(
    alloc: Global,
    requests: &[Request<'_>],
    font: &[u8],
    out: &mut [u8],
    sizes: &mut [u64],
) -> Answer
    requires { has_checked (asked_at (map asked_by requests.now) 0).flags ≡ true → font_fault font.now ≡ None }
    ensures exact { let all = map asked_by requests.now in AnswersRead (read_all all (length sizes.old)) result
        (λ k. AnswersSubsets k font.now all out.old out.new sizes.old sizes.new result) }
    ensures done { let all = map asked_by requests.now in result.status ≡ 0 → HoldsRead (read_all all (length sizes.old))
        (λ k. IsInRoom (concat (cuts_for k font.now all)) out.old out.new result.size) }
    ensures sizes_done { let all = map asked_by requests.now in
        result.status ≡ 0 → HoldsRead (read_all all (length sizes.old))
        (λ k. sizes.new ≡ map (λ cut. length cut) (cuts_for k font.now all)) }
    ensures untouched { result.status ≢ 0 → out.new ≡ out.old }
    ensures sizes_untouched { result.status ≢ 0 → sizes.new ≡ sizes.old }
{
    match read_requests(requests, sizes.len()) {
        Ok(kind) => answered_at(cuts_to(alloc, kind, font, requests, out, sizes)),
        Err(unread) => unread,
    }
}

/// Says in which form a font is a cut of the kind that the number names: `detail` is 0 where it is none, 1
/// where it is current and 2 where it is an old one, which only a full cut can be. Status 101 where the number names
/// no kind, which is asked before all else.
#[unsafe(no_mangle)]
pub extern "C" fn fontcut_cut_form(alloc: Global, kind: u32, font: &[u8]) -> Answer
    ensures { AnswersInKind kind result (λ k. AnswersForm k font.now result) }
{
    match kind_of_number(kind) {
        Some(kind) => form_answer(alloc, kind, font),
        None => Answer::unknown_kind(kind),
    }
}

/// Says whether `cut` is a cut of `font` for some codes and some glyphs, of the kind that the number names:
/// `detail` is 1 where it is one, and else 0. Where a file is refused `step` is 0 for `cut` and 1 for
/// `font`. Status 101 where the number names no kind, which is asked before all else.
#[unsafe(no_mangle)]
pub extern "C" fn fontcut_belongs(alloc: Global, kind: u32, cut: &[u8], font: &[u8]) -> Answer
    ensures { AnswersInKind kind result (λ k. AnswersBelonging k cut.now font.now result) }
{
    match kind_of_number(kind) {
        Some(kind) => belonging_answer(alloc, kind, cut, font),
        None => Answer::unknown_kind(kind),
    }
}

/// Writes the join of all files, cuts of the kind that the number names, to the front of `out`. A refusal
/// leaves `out` as it was, and `step` is the index of the file that is refused. Status 101 where the number
/// names no kind, which is asked before all else.
#[unsafe(no_mangle)]
pub extern "C" fn fontcut_join(alloc: Global, kind: u32, files: &[&[u8]], out: &mut [u8]) -> Answer
    ensures exact { let bytes = map (λ f. f.now) files.now in
        AnswersInKind kind result (λ k. AnswersJoin k bytes out.old out.new result) }
    ensures done { let bytes = map (λ f. f.now) files.now in result.status ≡ 0 → HoldsInKind kind
        (λ k. IsJoinInRoom (format_of k) bytes out.old out.new result.size) }
    ensures untouched { result.status ≢ 0 → out.new ≡ out.old }
{
    match kind_of_number(kind) {
        Some(kind) => answered(join_to(alloc, kind, files, out)),
        None => Answer::unknown_kind(kind),
    }
}

/// Writes the ranges of the codes that a font maps to the front of `out`, ascending, each as long as it
/// can be. `size` counts ranges. A refusal leaves `out` as it was.
#[unsafe(no_mangle)]
pub extern "C" fn fontcut_codes(alloc: Global, font: &[u8], out: &mut [CodeRange]) -> Answer
    ensures exact { AnswersCodes font.now out.old out.new result }
    ensures untouched { result.status ≢ 0 → out.new ≡ out.old }
{
    answered(codes_to(alloc, font, out))
}

/// Writes the glyph of each code to the front of `out`, 0 where the font maps it to none. `size` counts glyphs. A
/// refusal leaves `out` as it was. It needs no memory. For 64 codes and more of a font whose subtable is out of order it
/// asks for some, and is slower without. `flags` is 2 where the font was accepted before, and is not tested again, and
/// else 0; another number is answered by 105.
#[unsafe(no_mangle)]
pub extern "C" fn fontcut_glyphs(
    alloc: Global,
    flags: u32,
    font: &[u8],
    codes: &[u32],
    out: &mut [u16],
) -> Answer
    requires { has_checked flags ≡ true → font_fault font.now ≡ None }
    ensures exact { AnswersLookUp flags result (AnswersGlyphs font.now codes.now out.old out.new result) }
    ensures done { result.status ≡ 0 →
        IsInRoom (glyphs_of_codes font.now codes.now) out.old out.new result.size }
    ensures untouched { result.status ≢ 0 → out.new ≡ out.old }
{
    if flags != 0 && flags != 2 {
        return Answer::unknown_request();
    }
    answered(glyphs_to(alloc, flags, font, codes, out))
}

/// Writes the glyphs that a shaper may put for text to the front of `out`, ascending: those that chains of links of `GSUB`
/// lead to, as cuts of the kind that is asked for keep it, from .notdef, from the glyphs of the codes of the ranges, and
/// from the glyphs that are asked for. `size` counts glyphs. A cut for the same ranges and for these glyphs is closed: it
/// has every glyph to which links lead from the glyphs of its characters. A shaper may first replace characters, as U+65
/// U+301 by U+E9: the ranges have to include those that the text needs. A refusal leaves `out` as it was. Before all else
/// come 105, 101 and 104 as for [`fontcut_subset`].
#[unsafe(no_mangle)]
pub extern "C" fn fontcut_closure(
    alloc: Global,
    request: &Request<'_>,
    font: &[u8],
    out: &mut [u16],
) -> Answer
    requires { has_checked (asked_by request.now).flags ≡ true → font_fault font.now ≡ None }
    ensures exact { let a = asked_by request.now in AnswersRead (read a) result
        (λ k. AnswersClosure k font.now a out.old out.new result) }
    ensures done { let a = asked_by request.now in result.status ≡ 0 → HoldsRead (read a)
        (λ k. IsInRoom (closure_of k font.now a) out.old out.new result.size) }
    ensures closes { let a = asked_by request.now in result.status ≡ 0 → HoldsRead (read a)
        (λ k. IsForClosedCut k font.now a) }
    ensures shapes { let a = asked_by request.now in result.status ≡ 0 → HoldsRead (read a)
        (λ k. HasShaped k font.now a) }
    ensures untouched { result.status ≢ 0 → out.new ≡ out.old }
{
    match request.read() {
        Ok(kind) => answered(closure_to(alloc, kind, font, request, out)),
        Err(unread) => unread,
    }
}

/// Writes to `losses` what the cut that is asked for lacks or drops of what is wanted of a font. A refusal leaves `losses`
/// as it was. Before all else come 105, 101 and 104 as for [`fontcut_subset`].
#[unsafe(no_mangle)]
pub extern "C" fn fontcut_lost(
    alloc: Global,
    request: &Request<'_>,
    font: &[u8],
    losses: &mut Losses,
) -> Answer
    requires { has_checked (asked_by request.now).flags ≡ true → font_fault font.now ≡ None }
    ensures exact { let a = asked_by request.now in AnswersRead (read a) result
        (λ k. AnswersLost font.now a losses.old losses.new result) }
    ensures untouched { result.status ≢ 0 → losses.new ≡ losses.old }
{
    match request.read() {
        Ok(kind) => answered(lost_to(alloc, kind, font, request, losses)),
        Err(unread) => unread,
    }
}

/// Writes the glyphs that a file keeps of itself as a cut of the kind that the number names to the front of
/// `out`, ascending: .notdef, the glyphs of its characters, in all but full cuts those that have an outline,
/// metrics of their own or variation data, and what these are made of. `size` counts glyphs. A file that is
/// a cut is that of its font for these and for the ranges of [`fontcut_codes`]. A refusal leaves `out` as it
/// was. Status 101 where the number names no kind, which is asked before all else.
#[unsafe(no_mangle)]
pub extern "C" fn fontcut_kept(alloc: Global, kind: u32, font: &[u8], out: &mut [u16]) -> Answer
    ensures exact { AnswersInKind kind result (λ k. AnswersKept k font.now out.old out.new result) }
    ensures done { result.status ≡ 0 → HoldsInKind kind
        (λ k. IsInRoom (kept_of k font.now) out.old out.new result.size) }
    ensures untouched { result.status ≢ 0 → out.new ≡ out.old }
{
    match kind_of_number(kind) {
        Some(kind) => answered(kept_to(alloc, kind, font, out)),
        None => Answer::unknown_kind(kind),
    }
}

/// Writes the advance width and the left side bearing of each glyph to the front of `out`, in font units. `size`
/// counts glyphs. Status 102 where a number is no glyph of the font, and `detail` is the first such index. A refusal
/// leaves `out` as it was. It asks for no memory. `flags` is as for [`fontcut_glyphs`].
#[unsafe(no_mangle)]
pub extern "C" fn fontcut_metrics(
    flags: u32,
    font: &[u8],
    glyphs: &[u16],
    out: &mut [Metric],
) -> Answer
    requires { has_checked flags ≡ true → font_fault font.now ≡ None }
    ensures exact { AnswersLookUp flags result (AnswersMetrics font.now glyphs.now out.old out.new result) }
    ensures done { result.status ≡ 0 → IsInRoom (metrics_of font.now glyphs.now) out.old out.new result.size }
    ensures untouched { result.status ≢ 0 → out.new ≡ out.old }
{
    if flags != 0 && flags != 2 {
        return Answer::unknown_request();
    }
    answered(metrics_to(flags, font, glyphs, out))
}

/// Writes the numbers of a whole font to `info`, and answers as [`fontcut_check`]. A refusal leaves `info` as it was.
/// It asks for no memory.
#[unsafe(no_mangle)]
pub extern "C" fn fontcut_info(font: &[u8], info: &mut Info) -> Answer
    ensures answer { result ≡ check_answer (font_fault font.now) }
    ensures done { font_fault font.now ≡ None → info.new ≡ info_of font.now }
    ensures untouched { result.status ≢ 0 → info.new ≡ info.old }
{
    match Font::open(font) {
        Ok(font) => {
            *info = info_in(&font);
            Answer::done(0)
        }
        Err(error) => Refusal::Font(error).answer(),
    }
}

/// Writes the characters of a text in UTF-8, and those that it needs beside them, to the front of `out`, as ascending
/// ranges that do not touch. `size` counts ranges. Status 106 where the text is not UTF-8, and `detail` is the index of
/// the first such byte. A refusal leaves `out` as it was.
#[unsafe(no_mangle)]
pub extern "C" fn fontcut_needed(alloc: Global, text: &[u8], out: &mut [CodeRange]) -> Answer
    ensures exact { AnswersNeeded text.now out.old out.new result }
    ensures untouched { result.status ≢ 0 → out.new ≡ out.old }
{
    answered(needed_to(alloc, text, out))
}

/// Writes the glyphs that a font has for the variation sequences of a text in UTF-8 to the front of `out`, ascending: each
/// sequence is a character and the selector that follows it at once. `size` counts glyphs. Status 106 where the text is not
/// UTF-8, and `detail` is the index of the first such byte. A refusal leaves `out` as it was. `flags` is as for
/// [`fontcut_glyphs`].
#[unsafe(no_mangle)]
pub extern "C" fn fontcut_variants(
    alloc: Global,
    flags: u32,
    font: &[u8],
    text: &[u8],
    out: &mut [u16],
) -> Answer
    requires { has_checked flags ≡ true → font_fault font.now ≡ None }
    ensures exact { AnswersLookUp flags result (AnswersVariants font.now text.now out.old out.new result) }
    ensures untouched { result.status ≢ 0 → out.new ≡ out.old }
{
    if flags != 0 && flags != 2 {
        return Answer::unknown_request();
    }
    answered(variants_to(alloc, flags, font, text, out))
}

/// Writes the codes that the words of a list in UTF-8 name to the front of `out`, as ascending ranges that do not touch.
/// `size` counts ranges. Status 106 where a word names no range or the list is not UTF-8, and `detail` is the index of the
/// first byte of what is wrong. A refusal leaves `out` as it was.
#[unsafe(no_mangle)]
pub extern "C" fn fontcut_ranges(alloc: Global, list: &[u8], out: &mut [CodeRange]) -> Answer
    ensures exact { AnswersRanges out.old out.new result }
    ensures untouched { result.status ≢ 0 → out.new ≡ out.old }
{
    answered(listed_to(alloc, list, out))
}

/// Writes the text of what another call answered to the front of `out`: the text of the error that the answer says,
/// and none where it says none, as where that call was done. A refusal leaves `out` as it was.
#[unsafe(no_mangle)]
pub extern "C" fn fontcut_refusal_text(alloc: Global, answer: Answer, out: &mut [u8]) -> Answer
    ensures exact { AnswersText answer out.old out.new result }
    ensures untouched { result.status ≢ 0 → out.new ≡ out.old }
{
    answered(text_to(alloc, answer, out))
}

/// The version of the library.
const VERSION: u32 = 0x000B00;

/// Returns the version of the library as one number: 65,536 times its first number, 256 times its second one, and its
/// third one. It is 0x010203 for 1.2.3.
#[unsafe(no_mangle)]
pub extern "C" fn fontcut_version() -> u32
    ensures { result ≡ 0x000B00 }
{
    VERSION
}
