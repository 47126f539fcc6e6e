//! The laws of fonts, contents and cuts: the contract of each function is the law.
ghost use Rattle.std.specs.Prelude.{◌≡◌, ◌≢◌, ℕ, ◌≤◌, ◌↔◌, ◌⊎◌, nat_eq, Bool, true, false, List, [], length, IsSome, Option, None, Some};
ghost use Rattle.sfnt_bytes.specs.declared.directory.DirError.TheVariants.{FileTooLarge};
ghost use Rattle.sfnt_bytes.specs.declared.directory.TheConstants.{MAX_FILE};
ghost use Rattle.font_tables.specs.Metrics.{metric_of};
ghost use Rattle.font_tables.specs.Outlines.{outline_of};
ghost use Rattle.codes.specs.CharacterMap.{restricted};
ghost use Rattle.font_glyph.specs.Reach.{Reach};
ghost use Rattle.font_file.specs.Font.{font_fault, map_of};
ghost use Rattle.font_file.specs.declared.font_error.FontError.{FontError};
ghost use Rattle.font_file.specs.declared.font_error.FontError.TheVariants.{Directory};
ghost use Rattle.font_theory.specs.Bytes.{padded};
ghost use Rattle.font_theory.specs.Content.{Content, Font, IsClosedContent, IsFont, IsPlain, IsWritable, KeepsComponents, Wanted, content, plain_font, is_kept, is_root, is_seed, of_codes, read_back, wanted_within};
ghost use Rattle.font_theory.specs.Cut.{Format, IsCurrent, IsCut, IsFormat, IsOld, Writes, cut, is_current, is_cut, is_old, content_of_all};

/// What an accepted file means is a font.
pub fn meaning_is_font()
    ensures { (file : List ℕ) → font_fault file ≡ None → IsFont (plain_font file) }
{}

/// A file that is accepted, or refused for anything but its size, is not too large.
pub fn size_of_file()
    ensures { (file : List ℕ) → (font_fault file ≡ None → length file ≤ MAX_FILE)
        × ((error : FontError) → font_fault file ≡ Some error → error ≢ Directory FileTooLarge →
        length file ≤ MAX_FILE) }
{}

/// A content of a font is closed.
pub fn content_is_closed()
    ensures { (F : Font) (wanted : Wanted) → IsFont F → IsClosedContent (content F wanted) }
{}

/// A closed content is one for which a file is written.
pub fn closed_is_writable()
    ensures { (K : Content) → IsClosedContent K → IsWritable K }
{}

/// A closed content keeps .notdef, the glyph of each code, and each component of an outline that it
/// keeps.
pub fn closed_keeps()
    ensures { (K : Content) → IsClosedContent K → KeepsComponents K
        × ((g : ℕ) (b : List ℕ) → K.outline g ≡ Some b → padded b ≡ b) }
{}

/// The content of a content is that of the font for the codes in both sets, and for the glyphs of the second that the
/// first keeps. So the content for no more than was wanted is that of the font.
pub fn cut_of_cut()
    ensures { (F : Font) (A B : Wanted) → IsFont F →
        (content (read_back (content F A)) B ≡ content F (wanted_within F A B))
        × (((c : ℕ) → B.codes c ≡ true → A.codes c ≡ true) → ((g : ℕ) → B.glyphs g ≡ true → A.glyphs g ≡ true)
        → content (read_back (content F A)) B ≡ content F B) }
{}

/// Of what is wanted only the codes that are mapped count, and the glyphs that are there.
pub fn wanted_counts()
    ensures { (F : Font) (A B : Wanted) → IsFont F → ((c : ℕ) → F.map c ≢ 0 → A.codes c ≡ B.codes c)
        → ((g : ℕ) → F.there g ≡ true → A.glyphs g ≡ B.glyphs g) → content F A ≡ content F B }
{}

/// A wanted code keeps its glyph, and what that glyph leads to keeps its outline, up to zeros
/// after it; so does what a wanted glyph leads to that is there.
pub fn wanted_is_kept()
    ensures { (F : Font) (wanted : Wanted) → IsFont F
        → ((g : ℕ) → Reach F.outline (is_seed (restricted wanted.codes F.map)) g →
        (read_back (content F wanted)).outline g ≡ padded (F.outline g))
        × ((c : ℕ) → wanted.codes c ≡ true → ((content F wanted).map c ≡ F.map c)
        × ((g : ℕ) → Reach F.outline (nat_eq (F.map c)) g →
        (read_back (content F wanted)).outline g ≡ padded (F.outline g)))
        × ((r : ℕ) → wanted.glyphs r ≡ true → F.there r ≡ true → (g : ℕ) → Reach F.outline (nat_eq r) g →
        (read_back (content F wanted)).outline g ≡ padded (F.outline g)) }
{}

/// A glyph is a root exactly where it is .notdef, the glyph of a wanted code, or a wanted glyph that is there; what is
/// kept is what components lead to from the roots; and what is there in a closed content has an outline.
pub fn roots_are()
    ensures { ((F : Font) (wanted : Wanted) (g : ℕ) →
        is_root F wanted g ≡ true ↔ (is_seed (restricted wanted.codes F.map) g ≡ true)
        ⊎ ((wanted.glyphs g ≡ true) × (F.there g ≡ true)))
        × ((F : Font) (wanted : Wanted) → IsFont F → (g : ℕ) →
        is_kept F wanted g ≡ true ↔ Reach F.outline (is_root F wanted) g)
        × ((K : Content) → IsClosedContent K → (g : ℕ) → K.there g ≡ true → IsSome (K.outline g)) }
{}

/// Where no glyph is there, as in a plain reader, what is wanted by number does not count; and where codes alone are
/// wanted, the roots are .notdef and their glyphs.
pub fn plain_has_no_numbers()
    ensures { ((F : Font) (wanted : Wanted) → ((g : ℕ) → F.there g ≡ false) →
        is_root F wanted ≡ is_seed (restricted wanted.codes F.map))
        × ((F : Font) (codes : ℕ → Bool) → is_root F (of_codes codes) ≡ is_seed (restricted codes F.map))
        × ((F : Font) (wanted : Wanted) → IsFont F → ((g : ℕ) → F.there g ≡ false) →
        content F wanted ≡ content F (of_codes wanted.codes))
        × ((file : List ℕ) → IsPlain (plain_font file).copied)
        × ((file : List ℕ) (g : ℕ) → (plain_font file).there g ≡ false) }
{}

/// What is kept of an accepted file is what its outlines lead to from .notdef and the glyphs of the
/// wanted codes.
pub fn kept_is_reached()
    ensures { (file : List ℕ) (wanted : Wanted) → font_fault file ≡ None
        → (g : ℕ) → is_kept (plain_font file) wanted g ≡ true ↔ Reach (outline_of file)
        (is_seed (restricted wanted.codes (map_of file))) g }
{}

/// In a file of which a content of an accepted one is read back, a wanted code has its glyph, and
/// what that glyph leads to has its outline, up to zeros after it.
pub fn wanted_is_in_file()
    ensures { (file other : List ℕ) (wanted : Wanted) → font_fault file ≡ None →
        plain_font other ≡ read_back (content (plain_font file) wanted)
        → (c : ℕ) → wanted.codes c ≡ true → (map_of other c ≡ map_of file c)
        × ((g : ℕ) → Reach (outline_of file) (nat_eq (map_of file c)) g →
        outline_of other g ≡ padded (outline_of file g)) }
{}

/// A file of which a content of another one is read back has the metrics of that one.
pub fn metrics_are_kept()
    ensures { (file other : List ℕ) (wanted : Wanted) →
        plain_font other ≡ read_back (content (plain_font file) wanted) → (g : ℕ) →
        metric_of other g ≡ metric_of file g }
{}

/// A cut that is not too large is in cut form, and its cuts are those of the font for the codes in
/// both sets and the wanted glyphs that it keeps; those for no more than was wanted are those of the font.
pub fn cut_is_cut()
    ensures { (R : Format) → IsFormat R → (F : List ℕ) → R.fault F ≡ None → (A : Wanted) (X : List ℕ) →
        Writes R (content (R.font F) A) X → length X ≤ R.limit
        → IsCut R X × (R.font X ≡ read_back (content (R.font F) A))
        × (content_of_all R X ≡ content (R.font F) A)
        × ((B : Wanted) → cut R X B ≡ cut R F (wanted_within (R.font F) A B))
        × ((B : Wanted) → ((c : ℕ) → B.codes c ≡ true → A.codes c ≡ true) →
        ((g : ℕ) → B.glyphs g ≡ true → A.glyphs g ≡ true) → cut R X B ≡ cut R F B) }
{}

/// Whether an accepted file is in cut form is decided.
pub fn cut_form_is_decided()
    ensures { (R : Format) → IsFormat R → (X : List ℕ) → R.fault X ≡ None → is_cut R X ≡ true ↔ IsCut R X }
{}

/// A cut that is written, and is not too large, is current.
pub fn cut_is_current()
    ensures { (R : Format) → IsFormat R → (F : List ℕ) → R.fault F ≡ None → (A : Wanted) →
        length (cut R F A) ≤ R.limit → IsCurrent R (cut R F A) }
{}

/// A cut as it was written before is an old one, where it is not too large, and its content for all codes
/// and glyphs is that of the font for what was wanted.
pub fn old_cut_is_old()
    ensures { (R : Format) → IsFormat R → (F : List ℕ) → R.fault F ≡ None → (A : Wanted) →
        length (R.old (content (R.font F) A)) ≤ R.limit → IsOld R (R.old (content (R.font F) A))
        × (content_of_all R (R.old (content (R.font F) A)) ≡ content (R.font F) A) }
{}

/// A file in cut form is current, or an old cut.
pub fn cut_is_in_a_form()
    ensures { (R : Format) (X : List ℕ) → IsCut R X ↔ IsCurrent R X ⊎ IsOld R X }
{}

/// Whether an accepted file is an old cut is decided.
pub fn old_is_decided()
    ensures { (R : Format) (X : List ℕ) → R.fault X ≡ None → is_old R X ≡ true ↔ IsOld R X }
{}

/// A current file is in cut form.
pub fn current_is_cut()
    ensures { (R : Format) (X : List ℕ) → IsCurrent R X → IsCut R X }
{}

/// Whether an accepted file is current is decided.
pub fn current_is_decided()
    ensures { (R : Format) (X : List ℕ) → R.fault X ≡ None → is_current R X ≡ true ↔ IsCurrent R X }
{}
