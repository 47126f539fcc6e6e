//! Lean cuts, by the calls that take a kind.
use crate::samples::wanted_of;
use font_cut::{
    CutForm, Font, FontOfKind, FontToCut, Kind, Outlet, belongs, cut_of_kind, cut_of_kind_into,
    form_of_kind, is_of_kind,
};
use sample_fonts::known_cuts::{AACUTE, LEAN_AACUTE};
use sfnt_bytes::BASE6;
use std::alloc::Global;
use std::test::Fail;

#[test]
fn lean_cut_of_aacute(rt: HostRuntime) -> Result<(), Fail> {
    let font = Font::open(&BASE6)?;
    let wanted = wanted_of(rt.alloc(), &[(0xC1, 0xC1)])?;
    let lean = FontToCut::open(rt.alloc(), Kind::Lean, false, &font)?;
    let made = cut_of_kind(rt.alloc(), &lean, Some(&wanted), Some(&[]))?;
    assert_eq!(rt; made.as_slice(), LEAN_AACUTE.as_slice());
    Ok(())
}

#[test]
fn sends_the_lean_cut(rt: HostRuntime) -> Result<(), Fail> {
    let font = Font::open(&BASE6)?;
    let wanted = wanted_of(rt.alloc(), &[(0xC1, 0xC1)])?;
    let mut outlet = Outlet::new(Vec::new(rt.alloc()));
    let lean = FontToCut::open(rt.alloc(), Kind::Lean, false, &font)?;
    let answer = cut_of_kind_into(rt.alloc(), &lean, Some(&wanted), Some(&[]), &mut outlet);
    assert_eq!(rt; answer, Ok(412));
    assert_eq!(rt; outlet.into_inner().as_slice(), LEAN_AACUTE.as_slice());
    Ok(())
}

// The full cut has metrics of glyphs without outlines, which are there like spaces are, and no names of glyphs: so it is its
// own lean cut for everything, but not one of the lean cut for its character.
#[test]
fn lean_cut_form_of_files(rt: HostRuntime) -> Result<(), Fail> {
    let (lean, made) = (Font::open(&LEAN_AACUTE)?, Font::open(&AACUTE)?);
    let base = Font::open(&BASE6)?;
    assert_eq!(rt; is_of_kind(rt.alloc(), &FontOfKind::lean(&lean)), Ok(true));
    assert_eq!(rt; is_of_kind(rt.alloc(), &FontOfKind::lean(&made)), Ok(true));
    assert_eq!(rt; is_of_kind(rt.alloc(), &FontOfKind::lean(&base)), Ok(false));
    let (cut, font) = (FontOfKind::lean(&lean), FontOfKind::lean(&made));
    assert_eq!(rt; form_of_kind(rt.alloc(), &cut), Ok(CutForm::Current));
    assert_eq!(rt; belongs(rt.alloc(), &cut, &font), Ok(true));
    assert_eq!(rt; belongs(rt.alloc(), &font, &cut), Ok(false));
    Ok(())
}

// Returns whether the cut of a kind of Base6 for U+C1 is its lean cut.
fn is_lean_aacute(alloc: Global, kind: Kind) -> Result<bool, Fail> {
    let font = Font::open(&BASE6)?;
    let opened = FontToCut::open(alloc, kind, true, &font)?;
    let wanted = wanted_of(alloc, &[(0xC1, 0xC1)])?;
    let made = cut_of_kind(alloc, &opened, Some(&wanted), Some(&[]))?;
    Ok(made.as_slice() == LEAN_AACUTE.as_slice())
}

// The font has no table of layout and none of variations, so its layout and variable cuts are its lean one.
#[test]
fn layout_and_variable_cuts_of_aacute(rt: HostRuntime) -> Result<(), Fail> {
    for kind in [Kind::Layout, Kind::Variable] {
        let is_lean = is_lean_aacute(rt.alloc(), kind)?;
        assert!(rt; is_lean, "{kind:?}");
    }
    Ok(())
}
