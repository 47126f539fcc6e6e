//! Whether a file is a cut of a kind, and whether it is one of a font.
ghost use Rattle.std.specs.Prelude.{◌≡◌, None, MatchResult};
ghost use Rattle.font_file.specs.Font.{font_fault};
ghost use Rattle.font_subset.specs.CutOfKind.{kind_form};
ghost use Rattle.font_theory.specs.Kinds.{fault_of};
ghost use Rattle.fontcut_c.specs.Answers.{form_number};
ghost use Rattle.fontcut_c.specs.Forms.{AnswersBelonging, AnswersForm, IsBelonging, RefusesForm, RefusesPair};
ghost use Rattle.fontcut_c.specs.Inside.{RefusesFonts, of_unopened_second};

use crate::answer::Answer;
use crate::refusal::Refusal;
use font_file::Font;
use font_subset::{CutForm, FontOfKind, OpenError, belongs, form_of_kind};
use font_theory::Kind;
use std::alloc::Global;

// Returns in which form an opened font is a cut of a kind.
fn form_of_font(alloc: Global, kind: Kind, font: &Font<'_>) -> Result<CutForm, Refusal>
    requires { font_fault font.now ≡ None }
    ensures { MatchResult result (λ form. (fault_of kind font.now ≡ None) × (form ≡ kind_form kind font.now))
        (RefusesForm kind font.now) }
{
    let opened = FontOfKind::open(alloc, kind, font)?;
    Ok(form_of_kind(alloc, &opened)?)
}

// Returns in which form a file is a cut of a kind.
#[tactic(auto, using(crate::proofs::CutLemmas::refused_for))]
fn form_of(alloc: Global, kind: Kind, file: &[u8]) -> Result<CutForm, Refusal>
    ensures { MatchResult result (λ form. (fault_of kind file.now ≡ None) × (form ≡ kind_form kind file.now))
        (RefusesForm kind file.now) }
{
    let font = Font::open(file)?;
    form_of_font(alloc, kind, &font)
}

// Returns the number of a form: 0 where the file is no cut, 1 where it is current and 2 where it is old.
fn number_of(form: CutForm) -> u32
    ensures { result ≡ form_number form }
{
    match form {
        CutForm::Not => 0,
        CutForm::Current => 1,
        CutForm::Old => 2,
    }
}

// Returns the refusal of the second of two fonts, which is not opened for cuts of a kind.
fn unopened_second(error: OpenError) -> Refusal
    ensures { result ≡ of_unopened_second error }
{
    match error {
        OpenError::NoMemory => Refusal::NoMemory,
        OpenError::Refused(error) => Refusal::Second(error),
    }
}

// Returns whether the file of an opened font is a cut of another, of a kind. The cut is opened for the kind first.
fn font_belongs(alloc: Global, kind: Kind, cut: &Font<'_>, font: &Font<'_>) -> Result<bool, Refusal>
    requires cut { font_fault cut.now ≡ None }
    requires font { font_fault font.now ≡ None }
    ensures { MatchResult result (IsBelonging kind cut.now font.now) (RefusesPair kind cut.now font.now) }
{
    let cut_opened = FontOfKind::open(alloc, kind, cut)?;
    let font_opened = match FontOfKind::open(alloc, kind, font) {
        Ok(opened) => opened,
        Err(error) => return Err(unopened_second(error)),
    };
    let yes = belongs(alloc, &cut_opened, &font_opened)?;
    Ok(yes)
}

// Opens a cut and its font, or returns the first of what refuses them as fonts.
fn opened_pair<'a>(cut: &'a [u8], font: &'a [u8]) -> Result<(Font<'a>, Font<'a>), Refusal>
    ensures { MatchResult result (λ pair. (pair.0 ≡ cut.now) × (pair.1 ≡ font.now)
        × (font_fault cut.now ≡ None) × (font_fault font.now ≡ None)) (RefusesFonts cut.now font.now) }
{
    let cut = Font::open(cut)?;
    let font = Font::open(font).map_err(Refusal::Second)?;
    Ok((cut, font))
}

// Returns whether a file is a cut of a font, of a kind.
fn file_belongs(alloc: Global, kind: Kind, cut: &[u8], font: &[u8]) -> Result<bool, Refusal>
    ensures { MatchResult result (IsBelonging kind cut.now font.now) (RefusesPair kind cut.now font.now) }
{
    let (cut, font) = opened_pair(cut, font)?;
    font_belongs(alloc, kind, &cut, &font)
}

/// Returns what is answered to the question in which form a file is a cut of a kind.
pub(crate) fn form_answer(alloc: Global, kind: Kind, file: &[u8]) -> Answer
    ensures { AnswersForm kind file.now result }
{
    match form_of(alloc, kind, file) {
        Ok(form) => Answer::told(number_of(form)),
        Err(refusal) => refusal.answer(),
    }
}

/// Returns what is answered to the question whether a file is a cut of a font, of a kind.
pub(crate) fn belonging_answer(alloc: Global, kind: Kind, cut: &[u8], font: &[u8]) -> Answer
    ensures { AnswersBelonging kind cut.now font.now result }
{
    match file_belongs(alloc, kind, cut, font) {
        Ok(yes) => Answer::told(u32::from(yes)),
        Err(refusal) => refusal.answer(),
    }
}
