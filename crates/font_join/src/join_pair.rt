//! The join of two cuts, which is this project's own: the least file of which both are cuts.
ghost use Rattle.std.specs.Prelude.{◌≡◌, ◌≢◌, ◌||◌, ℕ, Bool, List, true, ◌≤◌, length, Err, None, IfErr, IfOk, MatchResult};
ghost use Rattle.sfnt_bytes.specs.Memory.{IsRefused};
ghost use Rattle.sfnt_bytes.specs.declared.directory.TheConstants.{MAX_FILE};
ghost use Rattle.sfnt_bytes.specs.declared.tag.Tag.{Tag};
ghost use Rattle.font_file.specs.Font.{font_fault};
ghost use Rattle.font_theory.specs.Content.{Content, Wanted, content, everything};
ghost use Rattle.font_theory.specs.Cut.{IsCut, Writes, either_wanted, renewed};
ghost use Rattle.font_theory.specs.declared.kinds.Kind.TheVariants.{Full};
ghost use Rattle.font_theory.specs.Kinds.{fault_of, format_of};
ghost use Rattle.font_subset.specs.CutOfKind.{cut_of};
ghost use Rattle.font_subset.specs.CutOfFont.{IsCutOf, full_cut};
ghost use Rattle.font_join.specs.Join.{IsForSize, IsJoin, IsJoinRefusal, IsLeastUpper, RefusalIsRight};
ghost use Rattle.font_join.specs.declared.join_error.JoinError.TheVariants.{NoMemory as JoinNoMemory, TableTooLong};

use crate::join_error::{JoinError, Which};
use crate::join_input::open_input;
use crate::join_source::Joined;
use font_theory::Kind;
use font_write::file_in_memory;
use sfnt_bytes::Memory;

// Returns the join of cuts of a kind, or the refusal that applies.
fn join_exactly<A: Memory + Copy>(
    alloc: A,
    kind: Kind,
    x: &[u8],
    y: &[u8],
) -> Result<Vec<u8, A>, JoinError>
    ensures exact { MatchResult result (λ z. IsJoin (format_of kind) x.now y.now z.items)
        (IsJoinRefusal (format_of kind) x.now y.now) }
    ensures memory { result ≡ Err JoinNoMemory → IsRefused A.refuses }
{
    let first = open_input(Which::First, x)?;
    let second = open_input(Which::Second, y)?;
    let joined = Joined::of_two(alloc, kind, &first, &second)?;
    Ok(file_in_memory(alloc, &joined)?)
}

/// Returns the join of two cuts of a kind, as [`join`] does for full ones.
///
/// # Errors
///
/// Those of [`join`].
pub fn join_of_kind<A: Memory + Copy>(
    alloc: A,
    kind: Kind,
    x: &[u8],
    y: &[u8],
) -> Result<Vec<u8, A>, JoinError>
    ensures exact { MatchResult result (λ z. IsJoin (format_of kind) x.now y.now z.items)
        (IsJoinRefusal (format_of kind) x.now y.now) }
    ensures cuts { (F : List ℕ) (A B : Wanted) → fault_of kind F ≡ None →
        Writes (format_of kind) (content ((format_of kind).font F) A) x.now →
        Writes (format_of kind) (content ((format_of kind).font F) B) y.now →
        length x.now ≤ MAX_FILE → length y.now ≤ MAX_FILE →
        MatchResult result (λ z. z.items ≡ cut_of kind F (either_wanted A B))
        (IsForSize (length (cut_of kind F (either_wanted A B)))) }
    ensures itself { fault_of kind x.now ≡ None → cut_of kind x.now everything ≡ x.now → y.now ≡ x.now →
        MatchResult result (λ z. z.items ≡ x.now) (λ error. error ≡ JoinError.NoMemory) }
    ensures renewal { IsCut (format_of kind) x.now → y.now ≡ x.now →
        MatchResult result (λ z. z.items ≡ renewed (format_of kind) x.now)
        (IsForSize (length (renewed (format_of kind) x.now))) }
    ensures upper { IfOk result (λ z. IsLeastUpper (format_of kind) x.now y.now z.items) }
    ensures small { IfOk result (λ z. length z.items ≤ MAX_FILE) }
    ensures refused { IfErr result (RefusalIsRight (format_of kind) x.now y.now) }
    ensures fits { ((K : Content) → (format_of kind).misfit K ≡ None) → (tag : Tag) →
        result ≢ Err (TableTooLong tag) }
    ensures memory { result ≡ Err JoinNoMemory → IsRefused A.refuses }
{
    join_exactly(alloc, kind, x, y)
}

/// Returns the join of two files in cut form, each as it is written today or as the first profile had
/// it: the file that has the tables of both, and the codes and the outlines of each, as it is written
/// today. Cuts of one font give its cut for the codes of both. An old file joined with itself is that
/// file written anew.
///
/// # Errors
///
/// The first [`JoinError`] that applies, in the order of its variants.
///
/// # Example
///
/// From the test `join_of_two_cuts` of `cut_tests`, over cuts of one font:
///
/// ```
/// let joined = join(rt.alloc(), &AACUTE, &A_AND_B)?;
/// assert_eq!(rt; joined.as_slice(), A_B_AACUTE.as_slice());
/// ```
pub fn join<A: Memory + Copy>(alloc: A, x: &[u8], y: &[u8]) -> Result<Vec<u8, A>, JoinError>
    ensures exact { MatchResult result (λ z. IsJoin (format_of Full) x.now y.now z.items)
        (IsJoinRefusal (format_of Full) x.now y.now) }
    ensures cuts { (F : List ℕ) (A B : ℕ → Bool) → font_fault F ≡ None → IsCutOf F A x.now →
        IsCutOf F B y.now → length x.now ≤ MAX_FILE → length y.now ≤ MAX_FILE →
        MatchResult result (λ z. z.items ≡ full_cut F (λ c. A c || B c))
        (IsForSize (length (full_cut F (λ c. A c || B c)))) }
    ensures itself { font_fault x.now ≡ None → full_cut x.now (λ _. true) ≡ x.now → y.now ≡ x.now →
        MatchResult result (λ z. z.items ≡ x.now) (λ error. error ≡ JoinError.NoMemory) }
    ensures renewal { IsCut (format_of Full) x.now → y.now ≡ x.now →
        MatchResult result (λ z. z.items ≡ renewed (format_of Full) x.now)
        (IsForSize (length (renewed (format_of Full) x.now))) }
    ensures upper { IfOk result (λ z. IsLeastUpper (format_of Full) x.now y.now z.items) }
    ensures small { IfOk result (λ z. length z.items ≤ MAX_FILE) }
    ensures refused { IfErr result (RefusalIsRight (format_of Full) x.now y.now) }
    ensures fits { (tag : Tag) → result ≢ Err (TableTooLong tag) }
    ensures memory { result ≡ Err JoinNoMemory → IsRefused A.refuses }
{
    join_of_kind(alloc, Kind::Full, x, y)
}
