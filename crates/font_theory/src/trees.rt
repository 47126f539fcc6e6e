//! The laws of trees of joins: the contract of each function is the law.
ghost use Rattle.std.specs.Prelude.{◌≡◌, ℕ, suc, ◌<◌, ◌≤◌, ◌⊎◌, List, length, None};
ghost use Rattle.font_theory.specs.Content.{Content, Wanted, content};
ghost use Rattle.font_theory.specs.Cut.{CanJoin, Format, IsCurrent, IsCut, IsFormat, Writes, cut, joined, misfit_of, renewed, content_of_all};
ghost use Rattle.font_theory.specs.Agreement.{Agree};
ghost use Rattle.font_theory.specs.Tree.{Differs, IsOver, IsSmall, JoinTree, Overflows, Takes, Value, cuts, file_at, grown, union_below, union_in};

/// A tree of cuts of one font that meets no size has as its value the cut for the union of its sets.
pub fn trees_of_cuts()
    ensures { (R : Format) → IsFormat R → (F : List ℕ) → R.fault F ≡ None → (t : JoinTree Wanted) →
        IsSmall R (cuts R F t) → Value R (cuts R F t) (cut R F (union_in t)) }
{}

/// Trees that take the same sets, in any order, grouping and repetition, have one union.
pub fn same_union()
    ensures { (s t : JoinTree Wanted) → ((A : Wanted) → Takes s A → Takes t A) →
        ((A : Wanted) → Takes t A → Takes s A) → union_in s ≡ union_in t }
{}

/// The tree that grows over cuts of one font, in any forms, comes to the cut for all their sets, and at
/// each step the two can be joined.
pub fn grown_cuts()
    ensures { (R : Format) → IsFormat R → (files : List (List ℕ)) (F : List ℕ) → R.fault F ≡ None →
        (A : ℕ → Wanted)
        → ((k : ℕ) → k < length files → Writes R (content (R.font F) (A k)) (file_at files k)) →
        ((k : ℕ) → k < length files → length (file_at files k) ≤ R.limit)
        → (k : ℕ) → k < length files
        → ((v : List ℕ) → Value R (grown files (suc k)) v → v ≡ cut R F (union_below A (suc k)))
        × ((x : List ℕ) → Value R (grown files k) x → length x ≤ R.limit →
        CanJoin R x (file_at files k) × (joined R x (file_at files k) ≡ cut R F (union_below A (suc k)))) }
{}

/// Two trees over the same files in cut form that meet no size have values of one content.
pub fn same_content()
    ensures { (R : Format) → IsFormat R → (files : List (List ℕ)) →
        ((k : ℕ) → k < length files → IsCut R (file_at files k))
        → (s t : JoinTree (List ℕ)) → IsOver files s → IsOver files t → IsSmall R s → IsSmall R t
        → (z : List ℕ) → Value R s z →
        (v : List ℕ) × Value R t v × (content_of_all R v ≡ content_of_all R z) }
{}

/// Where the tree that grows has a value, each tree over all files that meets no size has a value of
/// the same content, whose file is that value; over current files it is the same value.
pub fn same_value()
    ensures { (R : Format) → IsFormat R → (files : List (List ℕ)) → 0 < length files → (z : List ℕ) →
        Value R (grown files (length files)) z → length z ≤ R.limit
        → (t : JoinTree (List ℕ)) → IsOver files t → IsSmall R t
        → ((v : List ℕ) × Value R t v × (content_of_all R v ≡ content_of_all R z) × (renewed R v ≡ z))
        × (((k : ℕ) → k < length files → IsCurrent R (file_at files k)) → Value R t z) }
{}

/// Each tree over cuts of one font that meets no size has the value of the tree that grows.
pub fn same_value_of_cuts()
    ensures { (R : Format) → IsFormat R → (files : List (List ℕ)) → 0 < length files → (z : List ℕ) →
        Value R (grown files (length files)) z → length z ≤ R.limit
        → (F : List ℕ) → R.fault F ≡ None → (t : JoinTree Wanted) → IsOver files (cuts R F t) →
        IsSmall R (cuts R F t) → Value R (cuts R F t) z }
{}

/// Where a tree that grows meets two files that differ, or whose parts of a table have no room in one, each tree over
/// all files that meets no size meets two such files; and two that differ, where each table always has room.
pub fn clash_everywhere()
    ensures { (R : Format) → IsFormat R → (files : List (List ℕ)) →
        ((k : ℕ) → k < length files → IsCut R (file_at files k))
        → (k : ℕ) → k < length files → (x : List ℕ) → Value R (grown files k) x → length x ≤ R.limit →
        ¬ (Agree (content_of_all R x) (content_of_all R (file_at files k)) × (misfit_of R x (file_at files k) ≡ None))
        → (t : JoinTree (List ℕ)) → IsOver files t → IsSmall R t → (Differs R t ⊎ Overflows R t)
        × (((K : Content) → R.misfit K ≡ None) → Differs R t) }
{}
