//! The laws of unions of contents, of joins of files, and of their order: the contract of each
//! function is the law.
ghost use Rattle.std.specs.Prelude.{◌≡◌, ◌≢◌, ℕ, ◌≤◌, ◌↔◌, true, false, List, length, None, Some};
ghost use Rattle.sfnt_bytes.specs.declared.directory.DirError.TheVariants.{FileTooLarge};
ghost use Rattle.font_file.specs.declared.font_error.FontError.{FontError};
ghost use Rattle.font_file.specs.declared.font_error.FontError.TheVariants.{Directory};
ghost use Rattle.font_theory.specs.Content.{Content, Font, IsClosedContent, IsFont, Wanted, content, either_wanted};
ghost use Rattle.font_theory.specs.Cut.{CanJoin, Format, IsCurrent, IsCut, IsFormat, Under, Writes, cut, is_cut, joined, misfit_of, renewed, content_of_all};
ghost use Rattle.font_theory.specs.Difference.{difference};
ghost use Rattle.font_theory.specs.Agreement.{Agree, both};
ghost use Rattle.font_theory.specs.declared.kinds.TheConstants.{SEQUENCES};

/// Two contents of a font agree, and their union is its content for what either wants.
pub fn union_of_cuts()
    ensures { (F : Font) (A B : Wanted) → IsFont F → Agree (content F A) (content F B)
        × (both (content F A) (content F B) ≡ content F (either_wanted A B)) }
{}

/// The union of closed contents that agree is closed.
pub fn union_is_closed()
    ensures { (K L : Content) → IsClosedContent K → IsClosedContent L → Agree K L →
        IsClosedContent (both K L) }
{}

/// There is no first difference exactly where contents agree. Both have the same in the slot of variation sequences, as
/// all contents of a format have.
pub fn no_difference()
    ensures { (K L : Content) → IsClosedContent K → IsClosedContent L → K.copied SEQUENCES ≡ L.copied SEQUENCES
        → difference K L ≡ None ↔ Agree K L }
{}

/// A join is current, above both files, and below each file that is above both.
pub fn least_upper_bound()
    ensures { (R : Format) → IsFormat R → (X Y : List ℕ) → CanJoin R X Y → length (joined R X Y) ≤ R.limit
        → IsCurrent R (joined R X Y) × Under R X (joined R X Y) × Under R Y (joined R X Y)
        × ((F : List ℕ) → Under R X F → Under R Y F → Under R (joined R X Y) F) }
{}

/// A file under another is in cut form, where it is not too large, and two files under one agree.
pub fn under_one_file()
    ensures { (R : Format) → IsFormat R → ((X F : List ℕ) → Under R X F → length X ≤ R.limit → IsCut R X)
        × ((X Y F : List ℕ) → Under R X F → Under R Y F → length X ≤ R.limit → length Y ≤ R.limit →
        Agree (content_of_all R X) (content_of_all R Y)) }
{}

/// Being a cut of a file orders the files in cut form: two under each other have one content, and are one
/// file where both are current.
pub fn under_is_order()
    ensures { (R : Format) → IsFormat R → ((X : List ℕ) → IsCut R X → Under R X X)
        × ((X Y Z : List ℕ) → Under R X Y → Under R Y Z → Under R X Z)
        × ((X Z : List ℕ) → Under R X Z → Under R Z X → (content_of_all R X ≡ content_of_all R Z)
        × (IsCurrent R X → IsCurrent R Z → X ≡ Z)) }
{}

/// Two cuts of a font can be joined, and give its cut for what either wants.
pub fn join_of_cuts()
    ensures { (R : Format) → IsFormat R → (F : List ℕ) → R.fault F ≡ None → (A B : Wanted) (X Y : List ℕ)
        → Writes R (content (R.font F) A) X → Writes R (content (R.font F) B) Y → length X ≤ R.limit →
        length Y ≤ R.limit
        → CanJoin R X Y × (joined R X Y ≡ cut R F (either_wanted A B)) }
{}

/// A file in cut form can be joined with itself, which gives the file written anew: a current one
/// itself.
pub fn join_of_one()
    ensures { (R : Format) → IsFormat R → (X : List ℕ) → IsCut R X → CanJoin R X X × (joined R X X ≡ renewed R X)
        × (IsCurrent R X → joined R X X ≡ X) }
{}

/// Two accepted files can be joined exactly where both tests of cut form pass, no difference is
/// found, and each table has room for the parts of both.
pub fn can_join_is_decided()
    ensures { (R : Format) → IsFormat R → (X Y : List ℕ) → R.fault X ≡ None → R.fault Y ≡ None
        → ((is_cut R X ≡ true) × (is_cut R Y ≡ true)
        × (difference (content_of_all R X) (content_of_all R Y) ≡ None) × (misfit_of R X Y ≡ None)) ↔ CanJoin
        R X Y }
{}

/// What is refused, but for its size, or is not in cut form is under no file, and no file is above
/// two that differ, or whose parts of a table have no room in one.
pub fn true_refusals()
    ensures { (R : Format) → IsFormat R
        → ((X F : List ℕ) (error : FontError) → R.fault X ≡ Some error → error ≢ Directory FileTooLarge →
        ¬ Under R X F)
        × ((X F : List ℕ) → R.fault X ≡ None → is_cut R X ≡ false → ¬ Under R X F)
        × ((X Y F : List ℕ) → R.fault X ≡ None → R.fault Y ≡ None →
        difference (content_of_all R X) (content_of_all R Y) ≢ None → Under R X F → ¬ Under R Y F)
        × ((X Y F : List ℕ) → R.fault X ≡ None → R.fault Y ≡ None → misfit_of R X Y ≢ None → Under R X F →
        ¬ Under R Y F) }
{}
