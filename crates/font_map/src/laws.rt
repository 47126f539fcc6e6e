//! Laws over the definitions: each function's contract is one.
ghost use Rattle.std.specs.Prelude.{ℕ};
ghost use Rattle.codes.specs.CharacterMap.{IsCharacterMap, MapLaws};
ghost use Rattle.codes.specs.Runs.{CanonicalGroups, FewestGroups, RunIsFirstGroup};
ghost use Rattle.codes.specs.Word.{OneRangeOfWord};

/// Restrictions and unions of character maps follow from each other as those of sets do.
pub fn map_laws()
    ensures { MapLaws }
{}

/// Each character map has one list of groups that ascends, spells it, and has no two that could be
/// one: the list of its runs.
pub fn canonical_groups()
    ensures { (m : ℕ → ℕ) → IsCharacterMap m → CanonicalGroups m }
{}

/// Each ascending list of groups that spells a map on a set is at least as long as the canonical one.
pub fn fewest_groups()
    ensures { FewestGroups }
{}

/// What [`next_run`](crate::next_run) promises of a code makes its answer the first of the canonical
/// groups of the map on the codes from there on, or none where there is no such group.
pub fn run_is_first_group()
    ensures { RunIsFirstGroup }
{}

/// A text is a range word for one range of codes at most.
pub fn one_range_of_word()
    ensures { OneRangeOfWord }
{}
