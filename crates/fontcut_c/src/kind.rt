//! The kinds of cuts by their numbers for C.
ghost use Rattle.std.specs.Prelude.{◌≡◌};
ghost use Rattle.fontcut_c.specs.KindNumbers.{kind_of, takes_glyphs as takes};

use font_theory::Kind;

/// Returns the kind of a number, and none for a number that is no kind's.
#[tactic(auto, unfolding(crate::specs::KindNumbers::kind_of))]
pub(crate) fn kind_of_number(number: u32) -> Option<Kind>
    ensures { result ≡ kind_of number }
{
    match number {
        0 => Some(Kind::Full),
        1 => Some(Kind::Lean),
        2 => Some(Kind::Layout),
        3 => Some(Kind::Variable),
        _ => None,
    }
}

/// Returns whether cuts of a kind can be asked for these glyphs: full cuts are by characters alone.
pub(crate) fn takes_glyphs(kind: Kind, glyphs: &[u16]) -> bool
    ensures { result ≡ takes kind glyphs.now }
{
    match kind {
        Kind::Full => glyphs.is_empty(),
        Kind::Lean | Kind::Layout | Kind::Variable => true,
    }
}
