//! `belongs`: whether a file is a cut of a font.
ghost use Rattle.std.specs.Prelude.{◌≡◌, ◌≢◌, Err, None, IfErr, IfOk, MatchResult, OnOk, false, true};
ghost use Rattle.sfnt_bytes.specs.Memory.{IsRefused};
ghost use Rattle.streams.specs.Outlet.{IsFlushed, WentOut, broken_of, fresh_of};
ghost use Rattle.font_theory.specs.declared.kinds.Kind.{Kind};
ghost use Rattle.font_theory.specs.Kinds.{fault_of};
ghost use Rattle.commands.specs.Belongs.{Answers, BelongsStops, IsUnanswered, IsUnopened, belongs_text, got_both, of_unopened};
ghost use Rattle.streams.specs.Inlet.{inlet_fresh_of};
ghost use Rattle.commands.specs.JoinRun.{IsSpent};

use crate::run_error::{RunError, send};
use font_file::Font;
use font_join::Which;
use font_subset::{FontOfKind, OpenError, belongs};
use font_theory::Kind;
use sfnt_bytes::Memory;
use std::io::Read;
use streams::{Flushes, Inlet, Outlet};

// Opens one of two files, or returns why that one is refused as a font.
fn opened_as(which: Which, file: &[u8]) -> Result<Font<'_>, RunError>
    ensures exact { MatchResult result (λ font. font ≡ file.now)
        (λ error. (kind : Kind) → IsUnopened kind which file.now error) }
    ensures memory { result ≢ Err RunError.Memory }
{
    match Font::open(file) {
        Ok(font) => Ok(font),
        Err(error) => Err(RunError::OneOf(which, error)),
    }
}

// Returns the error of a run one of whose fonts is not opened for cuts of a kind.
fn unopened(which: Which, error: OpenError) -> RunError
    ensures { result ≡ of_unopened which error }
{
    match error {
        OpenError::NoMemory => RunError::Memory,
        OpenError::Refused(error) => RunError::OneOf(which, error),
    }
}

// Opens one of two fonts for cuts of a kind, or returns why it is refused for them.
fn opened_for<'f, 'a, A: Memory + Copy>(
    alloc: A,
    kind: Kind,
    which: Which,
    font: &'f Font<'a>,
) -> Result<FontOfKind<'f, 'a, A>, RunError>
    ensures exact { MatchResult result (λ opened. (opened ≡ (kind, font.entry.now))
        × (fault_of kind font.entry.now ≡ None)) (IsUnopened kind which font.entry.now) }
    ensures memory { result ≡ Err RunError.Memory → IsRefused A.refuses }
{
    match FontOfKind::open(alloc, kind, font) {
        Ok(opened) => Ok(opened),
        Err(error) => Err(unopened(which, error)),
    }
}

// Returns whether a file is a cut of another, of a kind. The first one is opened first.
fn is_cut_in<A: Memory + Copy>(
    alloc: A,
    kind: Kind,
    cut: &[u8],
    font: &[u8],
) -> Result<bool, RunError>
    ensures exact { MatchResult result (Answers kind cut.now font.now) (IsUnanswered kind cut.now font.now) }
    ensures memory { result ≡ Err RunError.Memory → IsRefused A.refuses }
{
    let first = opened_as(Which::First, cut)?;
    let opened_cut = opened_for(alloc, kind, Which::First, &first)?;
    let second = opened_as(Which::Second, font)?;
    let opened_font = opened_for(alloc, kind, Which::Second, &second)?;
    Ok(belongs(alloc, &opened_cut, &opened_font)?)
}

// Returns what is printed of an answer.
fn answer(belongs: bool) -> &'static str
    ensures { result.now ≡ belongs_text belongs }
{
    if belongs { "yes\n" } else { "no\n" }
}

/// Reads a cut and then a font to their ends, sends `yes` where the cut is one of that font for some codes
/// and some glyphs, of a kind and in any form, and else `no`, and returns which. No cut is built for that.
///
/// # Errors
///
/// `Read` if a reader fails: its inlet is broken, and the font is not read if the cut could not be.
/// `Memory` if out of memory, `OneOf` where a file is refused for cuts of the kind, the cut being
/// looked at first: then nothing was sent. `Write` where the writer fails.
pub fn run_belongs<R: Read, W: Flushes, A: Memory + Copy>(
    alloc: A,
    kind: Kind,
    cut: &mut Inlet<R>,
    font: &mut Inlet<R>,
    outlet: &mut Outlet<W>,
) -> Result<bool, RunError>
    requires cut { inlet_fresh_of cut.old ≡ true }
    requires font { inlet_fresh_of font.old ≡ true }
    requires outlet { fresh_of outlet.old ≡ true }
    ensures spent { inlet_fresh_of cut.new ≡ false }

    ensures answer { IfOk result (λ answer. got_both R.remaining cut.old font.old
        (λ x y. Answers kind x y answer)) }
    ensures sent { IfOk result (λ answer. WentOut W.contents outlet.old outlet.new (belongs_text answer)) }
    ensures whole { OnOk result (IsSpent cut.new × IsSpent font.new × (broken_of outlet.new ≡ false)) }
    ensures flushed { OnOk result (IsFlushed W.held outlet.new) }

    ensures error { IfErr result
        (BelongsStops kind R.remaining W.contents cut.old cut.new font.old font.new
        outlet.old outlet.new) }
    ensures memory { result ≡ Err RunError.Memory → IsRefused A.refuses }
{
    let cut_file = cut.read_all(alloc)?;
    let font_file = font.read_all(alloc)?;
    let belongs = is_cut_in(alloc, kind, &cut_file, &font_file)?;
    send(outlet, answer(belongs).as_bytes())?;
    Ok(belongs)
}
