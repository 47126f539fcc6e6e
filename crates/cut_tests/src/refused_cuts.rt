//! Memory that is refused, and how often it is asked for. A set has one request of its own, the first.
use crate::answers::{Outcome, answered, refused_in_turn};
use crate::samples::{cut_of, kept_of, wanted_of};
use crate::sent_cuts::is_sent_by_bytes;
use fakes::Refusing;
use fakes::devices::Counting;
use font_cut::{CutError, CutIntoError, CutOf, Font, Outlet, cut, cut_into};
use sample_fonts::fonts::{RING, wide};
use sample_fonts::known_cuts::AACUTE;
use sfnt_bytes::{BASE6, NoMemory};
use std::alloc::Global;
use std::test::Fail;

fn cut_without(
    alloc: Global,
    k: u64,
    font: &Font<'_>,
    range: (u32, u32),
    stated: &[u8],
) -> Outcome {
    let memory = Refusing::new(alloc, k);
    let Ok(wanted) = wanted_of(&memory, &[range]) else {
        return Outcome::Other;
    };
    if memory.requests() != 1 {
        return Outcome::Other;
    }
    match cut(&memory, font, &wanted) {
        Ok(file) => answered(memory.has_refused(), None, file.as_slice() == stated),
        Err(CutError::NoMemory) => answered(memory.has_refused(), Some(0), false),
        Err(_) => Outcome::Other,
    }
}

// The outlet is fresh, and nothing was sent, where memory was refused.
fn cut_into_without(
    alloc: Global,
    k: u64,
    font: &Font<'_>,
    range: (u32, u32),
    stated: &[u8],
) -> Outcome {
    let memory = Refusing::new(alloc, k);
    let Ok(wanted) = wanted_of(&memory, &[range]) else {
        return Outcome::Other;
    };
    let mut outlet = Outlet::new(Vec::new(alloc));
    let answer = cut_into(&memory, font, &wanted, &mut outlet);
    let (is_fresh, is_broken) = (outlet.is_fresh(), outlet.is_broken());
    let sent = outlet.into_inner();
    let is_sent = answer == Ok(stated.len() as u64) && sent.as_slice() == stated;
    let step = if answer == Err(CutIntoError::NoMemory) && is_fresh && sent.is_empty() {
        Some(0)
    } else {
        None
    };
    answered(memory.has_refused(), step, is_sent && !is_broken)
}

// Returns whether both cuts answer refused memory so, and the one that is held makes one request more.
fn are_refused_in_turn(alloc: Global, file: &[u8], range: (u32, u32)) -> Result<bool, Fail> {
    let font = Font::open(file)?;
    let stated = cut_of(alloc, file, &[range])?;
    let held = refused_in_turn(2, |k| cut_without(alloc, k, &font, range, &stated));
    let sent = refused_in_turn(2, |k| cut_into_without(alloc, k, &font, range, &stated));
    match (held, sent) {
        (Some((held, 0)), Some((sent, 0))) => Ok(held == sent.saturating_add(1)),
        _ => Ok(false),
    }
}

#[test]
fn refused_memory_in_cuts(rt: HostRuntime) -> Result<(), Fail> {
    let alloc = rt.alloc();
    for (file, range) in [
        (BASE6.as_slice(), (0x5A, 0x5A)),
        (&BASE6, (0x42, 0x42)),
        (&BASE6, (0xC1, 0xC1)),
        (&BASE6, (0, 0x10_FFFF)),
        (&RING, (0, 0x10_FFFF)),
    ] {
        assert!(rt; are_refused_in_turn(alloc, file, range)?, "{range:?}");
    }
    Ok(())
}

fn kept_without(alloc: Global, k: u64, file: &[u8], range: (u32, u32), stated: &[u16]) -> Outcome {
    let Ok(font) = Font::open(file) else {
        return Outcome::Other;
    };
    let memory = Refusing::new(alloc, k);
    let Ok(wanted) = wanted_of(&memory, &[range]) else {
        return Outcome::Other;
    };
    match CutOf::new(&memory, &font, &wanted) {
        Ok(source) => match kept_of(alloc, &source) {
            Ok(kept) => answered(memory.has_refused(), None, kept.as_slice() == stated),
            Err(_) => Outcome::Other,
        },
        Err(NoMemory) => answered(memory.has_refused(), Some(0), false),
    }
}

// The glyphs that a cut keeps. Its source asks for all memory that a cut needs before its file.
#[test]
fn kept_glyphs(rt: HostRuntime) -> Result<(), Fail> {
    let alloc = rt.alloc();
    for (file, range, stated) in [
        (BASE6.as_slice(), (0x5A, 0x5A), [0].as_slice()),
        (&BASE6, (0x20, 0x20), &[0, 4]),
        (&BASE6, (0x41, 0x42), &[0, 1, 5]),
        (&BASE6, (0xC1, 0xC1), &[0, 1, 2, 3]),
        (&BASE6, (0, 0x10_FFFF), &[0, 1, 2, 3, 4, 5]),
        (&RING, (0x42, 0x42), &[0, 2, 3, 5]),
    ] {
        let found = refused_in_turn(2, |k| kept_without(alloc, k, file, range, stated));
        assert!(rt; found.is_some(), "{range:?}");
    }
    Ok(())
}

// After a refusal the same set and outlet serve, once there is memory.
#[test]
fn outlets_after_a_refusal(rt: HostRuntime) -> Result<(), Fail> {
    let font = Font::open(&BASE6)?;
    let memory = Refusing::new(rt.alloc(), 2);
    let wanted = wanted_of(&memory, &[(0xC1, 0xC1)])?;
    assert_eq!(rt; memory.requests(), 1);
    let mut outlet = Outlet::new(Vec::new(rt.alloc()));
    let answer = cut_into(&memory, &font, &wanted, &mut outlet);
    assert_eq!(rt; answer, Err(CutIntoError::NoMemory));
    assert!(rt; outlet.is_fresh());
    let answer = cut_into(&memory, &font, &wanted, &mut outlet);
    assert_eq!(rt; answer, Ok(412));
    assert_eq!(rt; outlet.into_inner().as_slice(), AACUTE.as_slice());
    Ok(())
}

// Returns what the cut for 0x42 answers where this request is refused. It has this size.
fn count_without(alloc: Global, k: u64, font: &Font<'_>, size: u64) -> Outcome {
    let memory = Refusing::new(alloc, k);
    let Ok(wanted) = wanted_of(&memory, &[(0x42, 0x42)]) else {
        return Outcome::Other;
    };
    let mut outlet = Outlet::new(Counting::new());
    match cut_into(&memory, font, &wanted, &mut outlet) {
        Ok(sent) => answered(memory.has_refused(), None, sent == size),
        Err(CutIntoError::NoMemory) => answered(memory.has_refused(), Some(0), false),
        Err(_) => Outcome::Other,
    }
}

#[test]
fn one_byte_writer_and_growths(rt: HostRuntime) -> Result<(), Fail> {
    let alloc = rt.alloc();
    assert!(rt; is_sent_by_bytes(alloc));
    let file = wide(alloc)?;
    let (small, wide) = (Font::open(&BASE6)?, Font::open(&file)?);
    let growths = refused_in_turn(2, |k| count_without(alloc, k, &small, 372));
    assert!(rt; growths.is_some());
    let of_wide = refused_in_turn(2, |k| count_without(alloc, k, &wide, 134_217_724));
    assert_eq!(rt; growths, of_wide);
    Ok(())
}
