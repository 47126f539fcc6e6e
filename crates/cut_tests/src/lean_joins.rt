//! Joins of lean cuts, and what refuses them.
use crate::samples::copies;
use font_cut::{JoinError, Kind, Tag, Which, join_all_of_kind, join_of_kind};
use sample_fonts::known_cuts::{LEAN_A_AND_B, LEAN_A_B_AACUTE, LEAN_AACUTE};
use sfnt_bytes::BASE6;
use std::test::Fail;

#[test]
fn lean_join_of_two_cuts(rt: HostRuntime) -> Result<(), Fail> {
    let joined = join_of_kind(rt.alloc(), Kind::Lean, &LEAN_AACUTE, &LEAN_A_AND_B)?;
    assert_eq!(rt; joined.as_slice(), LEAN_A_B_AACUTE.as_slice());
    Ok(())
}

#[test]
fn lean_join_of_many(rt: HostRuntime) -> Result<(), Fail> {
    let files = copies(rt.alloc(), rt.alloc(), &[&LEAN_AACUTE, &LEAN_A_AND_B])?;
    let joined = join_all_of_kind(rt.alloc(), Kind::Lean, &files)?;
    assert_eq!(rt; joined.as_slice(), LEAN_A_B_AACUTE.as_slice());
    Ok(())
}

// A font is not a cut. The last advance is of all glyphs after it, so it stands in the table; any
// other is of its glyph.
#[test]
fn refused_lean_joins(rt: HostRuntime) {
    let mut table = LEAN_A_AND_B;
    (table[81], table[233], table[337]) = (121, 212, 45);
    let mut metric = LEAN_A_AND_B;
    (metric[81], metric[233], metric[317]) = (121, 212, 89);
    for (first, second, refusal) in [
        (
            &BASE6[..],
            &LEAN_A_AND_B[..],
            JoinError::NotACut(Which::First),
        ),
        (
            &LEAN_AACUTE[..],
            &BASE6[..],
            JoinError::NotACut(Which::Second),
        ),
        (
            &LEAN_AACUTE[..],
            &table[..],
            JoinError::DifferentTable(Tag(*b"hmtx")),
        ),
        (&LEAN_AACUTE[..], &metric[..], JoinError::DifferentGlyph(0)),
    ] {
        let joined = join_of_kind(rt.alloc(), Kind::Lean, first, second);
        assert_eq!(rt; joined.err(), Some(refusal));
    }
}
