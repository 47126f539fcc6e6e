//! Toys, by what any divided table gives.
ghost use Rattle.std.specs.Prelude.{◌≡◌, ◌<◌, MatchOption};
ghost use Rattle.std.specs.Str.{bytes_eq};
ghost use Rattle.font_theory.specs.Content.{glyph_count};
ghost use Rattle.font_theory.specs.Parting.{parts_of};
ghost use Rattle.divided_tables.specs.PartedTable.{alone};
ghost use Rattle.table_tests.specs.Toys.{IsEitherRefused};

use crate::toys::{TOYS, Toys};
use divided_tables::{OpenFrom, PartedTable, TablesBySlot};
use sfnt_bytes::MAXP;
use std::test::Fail;

// `maxp` up to numGlyphs: 3.
const THREE_GLYPHS: [u8; 6] = [0, 1, 0, 0, 0, 3];

// A font of three glyphs that has toys alone.
#[derive(Drop)]
struct ToysAlone<'t> {
    toys: &'t [u8],
}

impl<'t> TablesBySlot<'t> for ToysAlone<'t> {
    ghost use Rattle.table_tests.specs.Toys.{toys_alone};

    ghost tables_in = { λ t. toys_alone t.toys.now };

    #[tactic(auto, unfolding(crate::specs::Toys::toys_alone, font_theory::specs::Content::glyph_count))]
    fn glyph_count(&self) -> u16 {
        3
    }

    #[tactic(auto, unfolding(crate::specs::Toys::toys_alone))]
    fn table(&self, slot: usize) -> Option<&'t [u8]> {
        if slot == MAXP {
            return Some(&THREE_GLYPHS);
        }
        if slot == TOYS {
            return Some(self.toys);
        }
        None
    }

    #[tactic(auto, unfolding(crate::specs::Toys::toys_alone))]
    fn sequences(&self) -> Option<&[u8]> {
        None
    }
}

// Tells whether a glyph has the same part in a table of two fonts, where neither table is refused.
fn is_same_part<'t, B: TablesBySlot<'t>, T: OpenFrom<'t, B> + Drop>(
    first: &B,
    second: &B,
    g: u16,
) -> Option<bool>
    requires first { g < glyph_count (B.tables_in first.now) }
    requires second { g < glyph_count (B.tables_in second.now) }
    ensures { MatchOption result (IsEitherRefused T.refuses (B.tables_in first.now) (B.tables_in second.now))
        (λ same. same ≡ bytes_eq (parts_of (alone T.parting) (B.tables_in first.now) T.slot g)
        (parts_of (alone T.parting) (B.tables_in second.now) T.slot g)) }
{
    let Some(one) = T::open(first) else {
        return None;
    };
    let Some(other) = T::open(second) else {
        return None;
    };
    Some(one.is_same(&other, g))
}

// Tells whether a glyph has the same toy in two tables.
fn is_same_toy(first: &[u8], second: &[u8], g: u16) -> Option<bool>
    requires { g < 3 }
{
    let (one, other) = (ToysAlone { toys: first }, ToysAlone { toys: second });
    is_same_part::<ToysAlone<'_>, Toys<'_>>(&one, &other, g)
}

#[test]
fn toys_are_compared_as_any_parts(rt: HostRuntime) -> Result<(), Fail> {
    assert_eq!(rt; is_same_toy(&[9, 0, 7, 5], &[8, 0, 7, 4], 0), Some(true));
    assert_eq!(rt; is_same_toy(&[9, 0, 7, 5], &[8, 0, 7, 4], 1), Some(true));
    assert_eq!(rt; is_same_toy(&[9, 0, 7, 5], &[8, 0, 7, 4], 2), Some(false));
    assert_eq!(rt; is_same_toy(&[9, 0, 7], &[8, 0, 7, 4], 2), Some(false));
    Ok(())
}
