//! The laws of files: the contract of each function is the law.
ghost use Rattle.std.specs.Prelude.{◌≡◌, ◌≢◌, ℕ, ◌+◌, ◌*◌, ◌<◌, ◌≤◌, List, [], false, length, map, max, nat_eq, None, sum};
ghost use Rattle.std.specs.List.{concat, range_with_len};
ghost use Rattle.sfnt_bytes.specs.Directory.{kept_tag, slot_tag};
ghost use Rattle.sfnt_bytes.specs.Lines.{said_lines};
ghost use Rattle.sfnt_bytes.specs.declared.tag.TheConstants.{ALL_SLOTS, SLOTS};
ghost use Rattle.sfnt_bytes.specs.Findings.{findings_of};
ghost use Rattle.sfnt_bytes.specs.declared.directory.TheConstants.{MAX_FILE};
ghost use Rattle.codes.specs.declared.runs.Run.{Run};
ghost use Rattle.font_map.specs.Cmap.{chosen_of, subtable_at};
ghost use Rattle.font_file.specs.Font.{font_fault};
ghost use Rattle.font_theory.specs.Bytes.{padded};
ghost use Rattle.font_theory.specs.Content.{Content, IsClosedContent, IsPlain, IsWritable, plain_font, of_codes, read_back, table_in_slot};
ghost use Rattle.sfnt_bytes.specs.declared.base6.TheConstants.{BASE6};
ghost use Rattle.font_theory.specs.Cut.{Arises, IsCurrent, IsFormat, IsOld, Writes, cut, format_with, our_format};
ghost use Rattle.font_theory.specs.File.{Writing, IsWriting, cmap_of_three, file, writing_of, glyf_bytes, groups_of_content, outlines_of, size_of, size_with, table_in, tables_from};
ghost use Rattle.font_theory.specs.declared.Profile.{Profile};
ghost use Rattle.font_theory.specs.declared.Profile.TheVariants.{First, Second};
ghost use Rattle.font_theory.specs.declared.kinds.TheConstants.{SEQUENCES};
ghost use Rattle.font_theory.specs.WorkedFiles.{aacute_file, nothing_file, nothing_second_file};

/// What is read of the file of a content is the content.
pub fn file_means()
    ensures { (writing : Writing) → IsWriting writing → (K : Content) → IsWritable K → IsPlain K.copied
        → ((slot g : ℕ) → K.parts slot g ≡ []) → ((g : ℕ) → K.there g ≡ false) →
        plain_font (file writing K) ≡ read_back K }
{}

/// Of a content without tables of layout, the tables stand slot by slot, with the kept tags.
pub fn plain_tables_are()
    ensures { (writing : Writing) (K : Content) (head : List ℕ) → IsPlain K.copied
        → (tables_from writing K head 0 ALL_SLOTS ≡ said_lines
        (map (table_in writing K head) (range_with_len 0 SLOTS)))
        × ((slot : ℕ) → slot < SLOTS → slot_tag slot ≡ kept_tag slot) }
{}

/// How many bytes the file of a content has.
pub fn file_size()
    ensures { (writing : Writing) (K : Content) → IsWritable K → length (file writing K) ≡ size_of writing K }
{}

/// The outlines of a closed content take as many bytes in its file as they have.
pub fn outlines_size()
    ensures { (K : Content) → IsClosedContent K → length (padded (concat (outlines_of K))) ≡ sum
        (map length (outlines_of K)) }
{}

/// How many bytes a file in the first profile has without variation sequences, by how many groups spell its map and how
/// many bytes its outlines have.
pub fn size_in_first_profile()
    ensures { (K : Content) → IsClosedContent K → table_in_slot K.copied SEQUENCES ≡ []
        → size_of (writing_of First) K ≡ size_with K (28 + 12 * length (groups_of_content K))
        (sum (map length (outlines_of K))) }
{}

/// The same in the second profile.
pub fn size_in_second_profile()
    ensures { (K : Content) → IsClosedContent K → table_in_slot K.copied SEQUENCES ≡ []
        → size_of (writing_of Second) K ≡ size_with K (36 + 12 * length (groups_of_content K))
        (max (sum (map length (outlines_of K))) 4) }
{}

/// The same in any form with variation sequences, by how many bytes their table has too.
pub fn size_with_sequences()
    ensures { (writing : Writing) (K : Content) → table_in_slot K.copied SEQUENCES ≢ []
        → size_of writing K ≡ size_with K
        (44 + 12 * length (groups_of_content K) + length (padded (table_in_slot K.copied SEQUENCES)))
        (length (padded (glyf_bytes writing (outlines_of K)))) }
{}

/// The file of a closed content is accepted, where it is not too large.
pub fn file_is_accepted()
    ensures { (writing : Writing) → IsWriting writing → (K : Content) → IsClosedContent K →
        length (file writing K) ≤ MAX_FILE → font_fault (file writing K) ≡ None }
{}

/// Nothing is found in the file of a closed content.
pub fn file_has_no_finding()
    ensures { (writing : Writing) (K : Content) → IsClosedContent K → length (file writing K) ≤ MAX_FILE →
        findings_of (file writing K) ≡ [] }
{}

/// Each profile has a form.
pub fn profiles_are_writings()
    ensures { (profile : Profile) → IsWriting (writing_of profile) }
{}

/// With variation sequences the map of a `cmap` is that of the third record, 3/10, of format 12. The first record leads to
/// the same subtable.
pub fn third_is_chosen()
    ensures { (runs : List Run) (t : List ℕ) → (chosen_of (cmap_of_three runs t) ≡ (3, 10, 12))
        × (subtable_at (cmap_of_three runs t) 0 ≡ subtable_at (cmap_of_three runs t) 2) }
{}

/// No file without variation sequences is written in both forms: with them the `cmap` of both is one.
pub fn writings_are_apart()
    ensures { (K L : Content) → table_in_slot K.copied SEQUENCES ≡ [] →
        file (writing_of First) K ≢ file (writing_of Second) L }
{}

/// No file is both current and an old cut.
pub fn no_cut_is_both()
    ensures { (X : List ℕ) → IsCurrent our_format X → IsOld our_format X → ⊥ }
{}

/// The two files of a content without variation sequences differ in size.
pub fn writing_sizes_are_apart()
    ensures { (K : Content) → table_in_slot K.copied SEQUENCES ≡ [] →
        size_of (writing_of First) K ≢ size_of (writing_of Second) K }
{}

/// In the second form `glyf` has four bytes or the outlines alone.
pub fn second_glyf_has_bytes()
    ensures { (outlines : List (List ℕ)) → (length (concat outlines) ≡ 0 →
        length (glyf_bytes (writing_of Second) outlines) ≡ 4)
        × (length (concat outlines) ≢ 0 → length (glyf_bytes (writing_of Second) outlines) ≡ length
        (concat outlines)) }
{}

/// The reader of this program goes with any form that is written, and any that is read as a cut
/// too.
pub fn writings_are_formats()
    ensures { (writing old : Writing) → IsWriting writing → IsWriting old
        → IsFormat (format_with writing old) }
{}

/// The reader and the writer of this program go together: it writes the second profile, and reads cuts of
/// the first one too.
pub fn our_format_is()
    ensures { IsFormat our_format × (our_format.file ≡ file (writing_of Second))
        × (our_format.old ≡ file (writing_of First)) × (our_format.limit ≡ MAX_FILE) }
{}

/// A closed content whose file is not too large is one that accepted files come to: that file.
pub fn closed_arises()
    ensures { (K : Content) (X : List ℕ) → IsClosedContent K → IsPlain K.copied →
        ((slot g : ℕ) → K.parts slot g ≡ []) → ((g : ℕ) → K.there g ≡ false) → Writes our_format K X → length X ≤ MAX_FILE → Arises our_format K }
{}

/// The cut of a small font for no code in the first profile, byte by byte.
pub fn cut_of_nothing()
    ensures { cut (format_with (writing_of First) (writing_of First)) BASE6 (of_codes (λ c. false)) ≡ nothing_file }
{}

/// The same in the second profile.
pub fn cut_of_nothing_second()
    ensures { cut (format_with (writing_of Second) (writing_of First)) BASE6
        (of_codes (λ c. false)) ≡ nothing_second_file }
{}

/// Its cut for the code of a composite glyph, byte by byte.
pub fn cut_of_aacute()
    ensures { cut (format_with (writing_of First) (writing_of First)) BASE6
        (of_codes (λ c. nat_eq c 0xC1)) ≡ aacute_file }
{}
