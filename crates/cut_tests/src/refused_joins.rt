//! Memory that is refused while files are looked at and joined.
use crate::answers::{Outcome, answered, refused_in_turn};
use crate::samples::copies;
use fakes::Refusing;
use font_cut::{
    CutForm, DirError, Font, FontError, JoinAllError, JoinError, Joined, Which, cut_form, is_cut,
    is_cut_of, join, join_all,
};
use sample_fonts::first_profile;
use sample_fonts::fonts::RING;
use sample_fonts::known_cuts::{A_AND_B, A_B_AACUTE, AACUTE, NOTHING};
use sfnt_bytes::BASE6;
use std::alloc::Global;
use std::test::Fail;

fn cut_form_without(alloc: Global, k: u64, file: &[u8], stated: bool) -> Outcome {
    let Ok(font) = Font::open(file) else {
        return Outcome::Other;
    };
    let memory = Refusing::new(alloc, k);
    match is_cut(&memory, &font) {
        Ok(is_cut) => answered(memory.has_refused(), None, is_cut == stated),
        Err(_) => answered(memory.has_refused(), Some(0), false),
    }
}

fn form_without(alloc: Global, k: u64, file: &[u8], stated: CutForm) -> Outcome {
    let Ok(font) = Font::open(file) else {
        return Outcome::Other;
    };
    let memory = Refusing::new(alloc, k);
    match cut_form(&memory, &font) {
        Ok(form) => answered(memory.has_refused(), None, form == stated),
        Err(_) => answered(memory.has_refused(), Some(0), false),
    }
}

#[test]
fn refused_memory_in_cut_form(rt: HostRuntime) -> Result<(), Fail> {
    let alloc = rt.alloc();
    for (file, stated) in [
        (AACUTE.as_slice(), CutForm::Current),
        (&first_profile::AACUTE, CutForm::Old),
        (&BASE6, CutForm::Not),
        (&RING, CutForm::Not),
    ] {
        let found = refused_in_turn(1, |k| form_without(alloc, k, file, stated));
        assert!(rt; matches!(found, Some((_, 0))), "{} bytes", file.len());
    }
    Ok(())
}

#[test]
fn refused_memory_in_is_cut(rt: HostRuntime) -> Result<(), Fail> {
    let alloc = rt.alloc();
    for (file, stated) in [(AACUTE.as_slice(), true), (&BASE6, false), (&RING, false)] {
        let found = refused_in_turn(1, |k| cut_form_without(alloc, k, file, stated));
        assert!(rt; matches!(found, Some((_, 0))), "{} bytes", file.len());
    }
    Ok(())
}

fn belongs_without(alloc: Global, k: u64, cut: &[u8], font: &[u8], stated: bool) -> Outcome {
    let (Ok(cut), Ok(font)) = (Font::open(cut), Font::open(font)) else {
        return Outcome::Other;
    };
    let memory = Refusing::new(alloc, k);
    match is_cut_of(&memory, &cut, &font) {
        Ok(is_cut) => answered(memory.has_refused(), None, is_cut == stated),
        Err(_) => answered(memory.has_refused(), Some(0), false),
    }
}

#[test]
fn refused_memory_in_is_cut_of(rt: HostRuntime) -> Result<(), Fail> {
    let alloc = rt.alloc();
    for (cut, font, stated) in [
        (AACUTE.as_slice(), BASE6.as_slice(), true),
        (&first_profile::A_B_AACUTE, &BASE6, true),
        (&BASE6, &BASE6, false),
        (&AACUTE, &RING, false),
    ] {
        let found = refused_in_turn(1, |k| belongs_without(alloc, k, cut, font, stated));
        assert!(rt; matches!(found, Some((_, 0))), "{} bytes", cut.len());
    }
    Ok(())
}

// Returns the step of a join of two files that was refused memory.
fn step_of_two(refusal: Option<JoinError>) -> Option<usize> {
    match refusal {
        Some(JoinError::NoMemory) => Some(0),
        _ => None,
    }
}

fn union_without(alloc: Global, k: u64, x: &[u8], y: &[u8], stated: Option<JoinError>) -> Outcome {
    let (Ok(x), Ok(y)) = (Font::open(x), Font::open(y)) else {
        return Outcome::Other;
    };
    let memory = Refusing::new(alloc, k);
    let refusal = Joined::new(&memory, &x, &y).err();
    answered(
        memory.has_refused(),
        step_of_two(refusal),
        refusal == stated,
    )
}

// Returns the cut for 0xC1 with a byte in the padding of glyph 1, and the sums that are right then.
fn other_padding() -> [u8; 412] {
    let mut cut = AACUTE;
    cut[198] = 1;
    // in the checksum of `glyf` and in checksumAdjustment
    cut[34] = 0x05;
    cut[246] = 0x1B;
    cut
}

fn join_without(
    alloc: Global,
    k: u64,
    x: &[u8],
    y: &[u8],
    stated: Result<&[u8], JoinError>,
) -> Outcome {
    let memory = Refusing::new(alloc, k);
    match join(&memory, x, y) {
        Ok(file) => answered(memory.has_refused(), None, stated == Ok(file.as_slice())),
        Err(error) => {
            let step = step_of_two(Some(error));
            answered(memory.has_refused(), step, stated == Err(error))
        }
    }
}

#[test]
fn refused_memory_in_joins_of_two(rt: HostRuntime) -> Result<(), Fail> {
    let (alloc, other) = (rt.alloc(), other_padding());
    for (x, y, stated) in [
        (
            AACUTE.as_slice(),
            A_AND_B.as_slice(),
            Ok(A_B_AACUTE.as_slice()),
        ),
        (&first_profile::AACUTE, &A_AND_B, Ok(&A_B_AACUTE)),
        (&AACUTE, &BASE6, Err(JoinError::NotACut(Which::Second))),
        (&AACUTE, &other, Err(JoinError::DifferentGlyph(1))),
    ] {
        let refusal = stated.err();
        let found = refused_in_turn(1, |k| union_without(alloc, k, x, y, refusal));
        assert!(rt; matches!(found, Some((_, 0))), "{refusal:?}");
        let found = refused_in_turn(1, |k| join_without(alloc, k, x, y, stated));
        assert!(rt; matches!(found, Some((_, 0))), "{refusal:?}");
    }
    Ok(())
}

/// Returns the step of a join of many files that was refused memory.
pub fn step_of_many(refusal: JoinAllError) -> Option<usize> {
    match refusal {
        JoinAllError::At {
            step,
            error: JoinError::NoMemory,
        } => Some(step),
        _ => None,
    }
}

// The files have one request each.
fn join_all_without(
    alloc: Global,
    k: u64,
    files: &[&[u8]],
    stated: Result<&[u8], JoinAllError>,
) -> Outcome {
    let memory = Refusing::new(alloc, k);
    let Ok(copied) = copies(alloc, &memory, files) else {
        return Outcome::Other;
    };
    if memory.requests() != files.len() as u64 {
        return Outcome::Other;
    }
    match join_all(&memory, &copied) {
        Ok(file) => answered(memory.has_refused(), None, stated == Ok(file.as_slice())),
        Err(error) => {
            let step = step_of_many(error);
            answered(memory.has_refused(), step, stated == Err(error))
        }
    }
}

#[test]
fn refused_memory_in_join_all(rt: HostRuntime) {
    let alloc = rt.alloc();
    let files = [
        first_profile::AACUTE.as_slice(),
        &A_AND_B,
        &AACUTE,
        &NOTHING,
    ];
    let found = refused_in_turn(5, |k| join_all_without(alloc, k, &files, Ok(&A_B_AACUTE)));
    assert!(rt; matches!(found, Some((_, 3))), "{found:?}");
    let no_cut = Err(JoinAllError::At {
        step: 2,
        error: JoinError::NotACut(Which::Second),
    });
    let files = [NOTHING.as_slice(), &AACUTE, &BASE6];
    let found = refused_in_turn(4, |k| join_all_without(alloc, k, &files, no_cut));
    assert!(rt; matches!(found, Some((_, 2))), "{found:?}");
}

// Memory is asked for after the refusals of both fonts, and not where there is no file.
#[test]
fn faults_before_memory(rt: HostRuntime) {
    let alloc = rt.alloc();
    let truncated = FontError::Directory(DirError::Truncated);
    let first = JoinError::Font(Which::First, truncated);
    let second = JoinError::Font(Which::Second, truncated);
    let found = join_without(alloc, 1, &[], &BASE6, Err(first));
    assert_eq!(rt; found, Outcome::Stated);
    let found = join_without(alloc, 1, &BASE6, &[], Err(second));
    assert_eq!(rt; found, Outcome::Stated);
    let found = join_all_without(alloc, 1, &[], Err(JoinAllError::NothingToJoin));
    assert_eq!(rt; found, Outcome::Stated);
    let stated = Err(JoinAllError::At {
        step: 0,
        error: first,
    });
    let found = join_all_without(alloc, 3, &[&BASE6[..5], &BASE6], stated);
    assert_eq!(rt; found, Outcome::Stated);
}
