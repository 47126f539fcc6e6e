//! Calls that no program makes, and the texts of refusals that none prints.
use crate::samples::{copies, kept_of};
use font_cut::{
    CutError, CutForm, CutIntoError, Font, JoinAllError, JoinAllIntoError, Joined, Kind, cut_form,
    is_cut, is_cut_of, join, join_all,
};
use sample_fonts::known_cuts::{A_AND_B, A_B_AACUTE, AACUTE, LEAN_A_AND_B, LEAN_AACUTE};
use sfnt_bytes::BASE6;
use std::alloc::Global;
use std::fmt::Display;
use std::test::Fail;

#[test]
fn join_of_two_cuts(rt: HostRuntime) -> Result<(), Fail> {
    let joined = join(rt.alloc(), &AACUTE, &A_AND_B)?;
    assert_eq!(rt; joined.as_slice(), A_B_AACUTE.as_slice());
    Ok(())
}

// Returns whether the source of the join of two cuts of a kind keeps these glyphs.
fn join_keeps(alloc: Global, kind: Kind, x: &[u8], y: &[u8], glyphs: &[u16]) -> Result<bool, Fail> {
    let (first, second) = (Font::open(x)?, Font::open(y)?);
    let source = Joined::of_two(alloc, kind, &first, &second)?;
    let kept = kept_of(alloc, &source)?;
    Ok(kept.as_slice() == glyphs)
}

// The source of a join, by which it could be written elsewhere.
#[test]
fn kept_glyphs_of_joins(rt: HostRuntime) -> Result<(), Fail> {
    for (kind, x, y) in [
        (Kind::Full, AACUTE.as_slice(), A_AND_B.as_slice()),
        (Kind::Lean, &LEAN_AACUTE, &LEAN_A_AND_B),
    ] {
        let keeps = join_keeps(rt.alloc(), kind, x, y, &[0, 1, 2, 3, 5])?;
        assert!(rt; keeps, "{kind:?}");
    }
    Ok(())
}

#[test]
fn join_of_many(rt: HostRuntime) -> Result<(), Fail> {
    let files = copies(rt.alloc(), rt.alloc(), &[&AACUTE, &A_AND_B, &AACUTE])?;
    let joined = join_all(rt.alloc(), &files)?;
    assert_eq!(rt; joined.as_slice(), A_B_AACUTE.as_slice());
    Ok(())
}

#[test]
fn cut_form_of_files(rt: HostRuntime) -> Result<(), Fail> {
    let (font, made) = (Font::open(&BASE6)?, Font::open(&AACUTE)?);
    assert_eq!(rt; is_cut(rt.alloc(), &made), Ok(true));
    assert_eq!(rt; is_cut(rt.alloc(), &font), Ok(false));
    assert_eq!(rt; cut_form(rt.alloc(), &made), Ok(CutForm::Current));
    assert_eq!(rt; is_cut_of(rt.alloc(), &made, &font), Ok(true));
    Ok(())
}

// Returns whether an error has this text.
fn says<E: Display>(alloc: Global, error: &E, text: &str) -> Result<bool, Fail> {
    Ok(error.to_string(alloc)?.as_str() == text)
}

#[test]
fn texts_of_refused_cuts(rt: HostRuntime) -> Result<(), Fail> {
    let error = CutError::TooLarge(134_217_752);
    assert!(rt; says(rt.alloc(), &error, "too large 134217752")?);
    for (error, number, text) in [
        (CutIntoError::NoMemory, 16, "no memory"),
        (
            CutIntoError::TooLarge(134_217_752),
            18,
            "too large 134217752",
        ),
        (CutIntoError::WriteFault(100), 19, "write fault after 100"),
    ] {
        let is_stated = error.number() == number && says(rt.alloc(), &error, text)?;
        assert!(rt; is_stated, "{text}");
    }
    Ok(())
}

#[test]
fn texts_of_refused_joins(rt: HostRuntime) -> Result<(), Fail> {
    for (error, number, text) in [
        (
            JoinAllIntoError::NotJoined(JoinAllError::NothingToJoin),
            24,
            "nothing to join",
        ),
        (JoinAllIntoError::WriteFault(7), 19, "write fault after 7"),
    ] {
        let is_stated = error.number() == number && says(rt.alloc(), &error, text)?;
        assert!(rt; is_stated, "{text}");
    }
    Ok(())
}
