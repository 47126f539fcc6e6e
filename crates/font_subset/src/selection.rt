//! What is selected of a font for its cuts of a kind: the codes and the glyphs that are wanted of it, and the glyphs
//! that these keep. From .notdef, the glyphs of these codes, and the wanted glyphs that are there chains of components
//! lead to all that is kept. OpenType 1.9, cmap; glyf, Composite Glyph Description.
ghost use Rattle.std.specs.Prelude.{◌≡◌, ◌+◌, ◌-◌, ◌<◌, ◌≤◌, ℕ, Bool, [], length, None, Some, option_copied, unwrap_or, IfOk, MatchOption, OnErr, true};
ghost use Rattle.sfnt_bytes.specs.Directory.{kept_tag, table_of};
ghost use Rattle.sfnt_bytes.specs.Memory.{IsRefused};
ghost use Rattle.sfnt_bytes.specs.declared.directory.TheConstants.{MAX_FILE};
ghost use Rattle.sfnt_bytes.specs.declared.tag.TheConstants.{HEAD, SLOTS as KEPT_SLOTS};
ghost use Rattle.font_tables.specs.Fields.{glyph_count_of};
ghost use Rattle.font_tables.specs.Outlines.{outline_of};
ghost use Rattle.font_tables.specs.Tables.{head_of};
ghost use Rattle.codes.specs.CharacterMap.{IsCharacterMap};
ghost use Rattle.codes.specs.Runs.{IsRun, NoRun};
ghost use Rattle.font_file.specs.Font.{font_fault};
ghost use Rattle.font_theory.specs.Content.{Wanted as WantedSets, content, everything, plain_font};
ghost use Rattle.font_theory.specs.Cut.{IsCut};
ghost use Rattle.font_theory.specs.Kinds.{fault_of, font_of, format_of, tables_of};
ghost use Rattle.font_theory.specs.declared.kinds.Kind.{Kind};
ghost use Rattle.font_theory.specs.declared.kinds.Kind.TheVariants.{Full};
ghost use Rattle.font_subset.specs.KeptGlyphs.{IsKeptSet, IsRootSet, all_asked, asked, codes_asked, codes_wanted, glyphs_wanted, wanted_in, wanted_map};
ghost use Rattle.font_subset.specs.Inside.{AreMarked, IsOpenedFor, IsSeedSet};
ghost use Rattle.divided_tables.specs.DividedTables.{AreOpen};
ghost use Rattle.font_subset.specs.ListedRuns.{AreRunsOf};

use crate::accepted::{copied, head, outline, recall_accepted};
use crate::font_of_kind::FontOfKind;
use crate::listed_runs::ListedRuns;
use crate::presence::with_numbers;
use divided_tables::OpenTables;
use font_file::Font;
use font_glyph::{Marks, close};
use font_map::{Chart, Pieces, Run, Wanted, run_of};
use font_theory::Kind;
use font_write::Source;
use sfnt_bytes::{Memory, NoMemory, SLOTS};
use std::alloc::{Allocator, Global};
use std::marker::Model;

// Marks the glyphs of a run.
#[tactic(auto, using(crate::proofs::SeedLemmas::marked_start, crate::proofs::SeedLemmas::marked_more, crate::proofs::SeedLemmas::marked_end))]
fn mark_run<A: Allocator>(marks: &mut Marks<A>, run: Run)
    requires order { run.first ≤ run.last }
    requires within { run.glyph + (run.last - run.first) < length marks.old }
    requires small { run.glyph + (run.last - run.first) < 65536 }
    ensures { AreMarked marks.old marks.new run.glyph (run.last - run.first + 1) }
{
    let end = u32::from(run.glyph) + (run.last - run.first) + 1;
    for g in u32::from(run.glyph)..end {
        marks.set(g as u16);
    }
}

// A font, and the chart of its mapping, which is quick to walk in whatever order its subtable stands.
#[derive(Drop)]
struct Charted<'f, 'a, A: Allocator> {
    font: &'f Font<'a>,
    chart: Chart<'f, A>,
    // The runs of the mapping, where they are walked more than once.
    listed: Option<ListedRuns<A>>,
}

// Its value is the file of the font.
impl<'f, 'a, A: Allocator> Model for Charted<'f, 'a, A> {
    ghost use Rattle.std.specs.Prelude.{◌≡◌, ℕ, List};
    ghost use Rattle.font_tables.specs.Fields.{glyph_count_of};
    ghost use Rattle.font_file.specs.Font.{cmap_of};
    ghost use Rattle.std.specs.Prelude.{IfSome};
    ghost use Rattle.divided_tables.specs.DividedTables.{AreOpen};
    ghost use Rattle.font_subset.specs.ListedRuns.{AreRunsOf};

    ghost Value = { List ℕ };

    ghost view = { λ c. c.font.now };

    ghost invariant = { λ c. (c.chart ≡ (cmap_of c.font.now, glyph_count_of c.font.now))
        × IfSome c.listed (AreRunsOf c.font.now) };
}

impl<'f, 'a, A: Memory + Copy> Charted<'f, 'a, A> {
    fn of(alloc: A, font: &'f Font<'a>) -> Result<Charted<'f, 'a, A>, NoMemory>
        ensures font { IfOk result (λ charted. charted ≡ font.entry.now) }
        ensures memory { OnErr result (IsRefused A.refuses) }
    {
        let chart = Chart::of(alloc, font.mapping())?;
        Ok(Charted {
            font,
            chart,
            listed: None,
        })
    }

    // Makes a chart of the mapping, and lists its runs.
    fn with_runs(alloc: A, font: &'f Font<'a>) -> Result<Charted<'f, 'a, A>, NoMemory>
        ensures font { IfOk result (λ charted. charted ≡ font.entry.now) }
        ensures memory { OnErr result (IsRefused A.refuses) }
    {
        let charted = Charted::of(alloc, font)?;
        let runs = charted.runs(alloc)?;
        Ok(Charted {
            font: charted.font,
            chart: charted.chart,
            listed: Some(ListedRuns::new(runs)),
        })
    }

    // Recalls for the prover what opening the font has shown of its map. Does nothing at run time.
    #[tactic(auto, using(crate::proofs::SeedLemmas::whole_map))]
    fn known_map(&self)
        ensures { IsCharacterMap (wanted_map self.now None) }
    {
        let _count = self.font().tables().glyph_count();
    }

    // Lists the runs of the whole map.
    fn runs(&self, alloc: A) -> Result<Vec<Run, A>, NoMemory>
        ensures runs { IfOk result (λ runs. AreRunsOf self.now runs.items) }
        ensures memory { OnErr result (IsRefused A.refuses) }
    {
        self.known_map();
        let mut runs = Vec::new(alloc);
        let mut ahead = self.chart.piece(0);
        let mut from = 0;
        while let Some(piece) = ahead {
            let (run, behind) = run_of(&self.chart, piece);
            A::push(&mut runs, run)?;
            from = run.last + 1;
            ahead = behind;
        }
        Ok(runs)
    }

    // Returns the runs of the whole map.
    fn into_runs(self, alloc: A) -> Result<Vec<Run, A>, NoMemory>
        ensures runs { IfOk result (λ runs. AreRunsOf self.entry runs.items) }
        ensures memory { OnErr result (IsRefused A.refuses) }
    {
        let Charted {
            font,
            chart,
            listed,
        } = self;
        match listed {
            Some(listed) => Ok(listed.into_runs()),
            None => Charted {
                font,
                chart,
                listed: None,
            }
            .runs(alloc),
        }
    }
}

impl<'f, 'a, A: Allocator> Charted<'f, 'a, A> {
    fn font(&self) -> &'f Font<'a>
        ensures font { result.now ≡ self.now }

        // What opening the font has shown.
        ensures sound { font_fault self.now ≡ None }
    {
        recall_accepted(self.font);
        self.font
    }

    // Returns the run that begins at the least mapped and wanted code not below `from`.
    #[inline(always)]
    fn run_from<B: Allocator>(&self, wanted: Option<&Wanted<B>>, from: u32) -> Option<Run>
        ensures { MatchOption result
            (NoRun (wanted_map self.now (option_copied wanted.entry)) from)
            (IsRun (wanted_map self.now (option_copied wanted.entry)) from) }
    {
        match wanted {
            Some(wanted) => self.chart.wanted_run(wanted, from),
            None => self.next_run(from),
        }
    }

    // Returns the run that begins at the least mapped code not below `from`.
    #[inline(always)]
    fn next_run(&self, from: u32) -> Option<Run>
        ensures { MatchOption result (NoRun (wanted_map self.now None) from)
            (IsRun (wanted_map self.now None) from) }
    {
        match &self.listed {
            Some(listed) => listed.next_run(from),
            None => self.chart.next_run(from),
        }
    }
}

// Marks .notdef, and the glyphs of the wanted codes.
fn mark_seeds<A: Memory + Copy>(
    alloc: A,
    font: &Charted<'_, '_, A>,
    wanted: Option<&Wanted<A>>,
) -> Result<Marks<A>, NoMemory>
    ensures seeds { IfOk result (IsSeedSet font.now (codes_wanted (option_copied wanted.entry))) }
    ensures memory { OnErr result (IsRefused A.refuses) }
{
    let mut seeds = Marks::new(alloc, font.font().tables().glyph_count())?;
    seeds.set(0);
    let mut from = 0;
    while let Some(run) = font.run_from(wanted, from) {
        mark_run(&mut seeds, run);
        from = run.last + 1;
    }
    Ok(seeds)
}

/// The seeds of a cut, marked: .notdef and the glyphs of the wanted codes of a font.
pub struct Seeds<'f, 'a, A: Allocator = Global> {
    charted: Charted<'f, 'a, A>,
    // All codes are wanted where no set stands here.
    wanted: Option<&'f Wanted<A>>,
    marks: Marks<A>,
}

// Its value is the file of the font, and the ranges of the wanted codes where these are not all.
impl<'f, 'a, A: Allocator> Model for Seeds<'f, 'a, A> {
    ghost use Rattle.std.specs.Prelude.{ℕ, List, Option, option_copied};
    ghost use Rattle.codes.specs.declared.code_range.CodeRange.{CodeRange};
    ghost use Rattle.font_subset.specs.KeptGlyphs.{codes_wanted};
    ghost use Rattle.font_subset.specs.Inside.{IsSeedSet};

    ghost Value = { List ℕ × Option (List CodeRange) };

    ghost view = { λ s. (s.charted, option_copied s.wanted) };

    ghost invariant = { λ s. IsSeedSet s.charted (codes_wanted (option_copied s.wanted)) s.marks };
}

impl<'f, 'a, A: Allocator> Drop for Seeds<'f, 'a, A> {
    fn drop(self) {
        let Seeds {
            charted: _charted,
            wanted: _,
            marks: _marks,
        } = self;
    }
}

impl<'f, 'a, A: Memory + Copy> Seeds<'f, 'a, A> {
    /// Marks the seeds of a cut for the wanted codes of a font, or for all where no set is given.
    ///
    /// # Errors
    ///
    /// `NoMemory` if out of memory.
    pub fn of(
        alloc: A,
        font: &'f Font<'a>,
        wanted: Option<&'f Wanted<A>>,
    ) -> Result<Seeds<'f, 'a, A>, NoMemory>
        ensures seeds { IfOk result (λ seeds. seeds ≡ (font.entry.now, option_copied wanted.entry)) }
        ensures memory { OnErr result (IsRefused A.refuses) }
    {
        let charted = Charted::of(alloc, font)?;
        Seeds::in_chart(alloc, charted, wanted)
    }

    // Marks the seeds of a cut of a font that has its chart.
    fn in_chart(
        alloc: A,
        charted: Charted<'f, 'a, A>,
        wanted: Option<&'f Wanted<A>>,
    ) -> Result<Seeds<'f, 'a, A>, NoMemory>
        ensures seeds { IfOk result (λ seeds. seeds ≡ (charted.entry, option_copied wanted.entry)) }
        ensures memory { OnErr result (IsRefused A.refuses) }
    {
        let marks = mark_seeds(alloc, &charted, wanted)?;
        Ok(Seeds {
            charted,
            wanted,
            marks,
        })
    }
}

impl<'f, 'a, A: Allocator> Seeds<'f, 'a, A> {
    pub(crate) fn marks(&self) -> &Marks<A>
        ensures { IsSeedSet self.now.0 (codes_wanted self.now.1) result.now }
    {
        &self.marks
    }
}

// Marks the roots of a cut: the seeds, and the wanted glyphs that are there.
fn mark_roots<A: Allocator>(
    kind: Kind,
    font: &Charted<'_, '_, A>,
    seeds: Marks<A>,
    opened: Option<&FontOfKind<'_, '_, A>>,
    numbers: Option<&[u16]>,
) -> Marks<A>
    requires opened { IsOpenedFor kind font.now (option_copied opened) }
    requires count { length seeds ≡ glyph_count_of font.now }
    ensures count { length result ≡ glyph_count_of font.now }
    ensures roots { (codes : ℕ → Bool) → IsSeedSet font.now codes seeds → IsRootSet kind font.now
        (record { codes = codes; glyphs = glyphs_wanted (option_copied numbers.entry) }) result }
{
    match opened {
        Some(opened) => with_numbers(seeds, opened, numbers),
        None => seeds,
    }
}

// Marks the glyphs that a cut keeps: its roots, and what they are made of.
fn mark_reached<A: Memory + Copy>(
    alloc: A,
    font: &Charted<'_, '_, A>,
    roots: &Marks<A>,
) -> Result<Marks<A>, NoMemory>
    requires { length roots.now ≡ glyph_count_of font.now }
    ensures kept { IfOk result (λ kept. (kind : Kind) (wanted : WantedSets) → fault_of kind font.now ≡ None →
        IsRootSet kind font.now wanted roots.now → IsKeptSet kind font.now wanted kept) }
    ensures memory { OnErr result (IsRefused A.refuses) }
{
    let kept = close(alloc, font.font(), roots)?;
    Ok(kept)
}

// Returns the glyphs that a cut keeps.
fn mark_kept<A: Memory + Copy>(
    alloc: A,
    kind: Kind,
    font: &Charted<'_, '_, A>,
    seeds: Marks<A>,
    opened: Option<&FontOfKind<'_, '_, A>>,
    numbers: Option<&[u16]>,
) -> Result<Marks<A>, NoMemory>
    requires accepted { fault_of kind font.now ≡ None }
    requires opened { IsOpenedFor kind font.now (option_copied opened) }
    requires count { length seeds ≡ glyph_count_of font.now }
    ensures kept { IfOk result (λ kept. (codes : ℕ → Bool) → IsSeedSet font.now codes seeds → IsKeptSet kind font.now
        (record { codes = codes; glyphs = glyphs_wanted (option_copied numbers.entry) }) kept) }
    ensures memory { OnErr result (IsRefused A.refuses) }
{
    let roots = mark_roots(kind, font, seeds, opened, numbers);
    let kept = mark_reached(alloc, font, &roots)?;
    Ok(kept)
}

/// What is selected of a font for a cut of a kind: its tables, the wanted codes that it maps, and the outlines
/// that these and the wanted glyphs keep.
pub struct Selection<'f, 'a, A: Allocator = Global> {
    kind: Kind,
    charted: Charted<'f, 'a, A>,
    // The font as it was opened for the kind, which full cuts do not need.
    opened: Option<&'f FontOfKind<'f, 'a, A>>,
    // All codes are wanted where no set stands here.
    wanted: Option<&'f Wanted<A>>,
    // All glyphs are wanted where no list stands here.
    numbers: Option<&'f [u16]>,
    kept: Marks<A>,
}

// Its value is the kind, the file of the font, the ranges of the wanted codes, and the numbers of the wanted glyphs,
// where these are not all.
impl<'f, 'a, A: Allocator> Model for Selection<'f, 'a, A> {
    ghost use Rattle.std.specs.Prelude.{ℕ, List, option_copied};
    ghost use Rattle.font_theory.specs.declared.kinds.Kind.{Kind};
    ghost use Rattle.font_subset.specs.KeptGlyphs.{Asked, asked, wanted_in};
    ghost use Rattle.font_subset.specs.Inside.{IsSelected};

    ghost Value = { Kind × (List ℕ × Asked) };

    ghost view = { λ s. (s.kind, (s.charted, asked (option_copied s.wanted) (option_copied s.numbers))) };

    ghost invariant = { λ s. IsSelected s.kind s.charted (option_copied s.opened)
        (wanted_in (asked (option_copied s.wanted) (option_copied s.numbers))) s.kept };
}

impl<'f, 'a, A: Allocator> Drop for Selection<'f, 'a, A> {
    fn drop(self) {
        let Selection {
            kind: _,
            charted: _charted,
            opened: _,
            wanted: _,
            numbers: _,
            kept: _kept,
        } = self;
    }
}

impl<'f, 'a, A: Memory + Copy> Seeds<'f, 'a, A> {
    // Makes the selection for the codes that these seeds are of, and for the glyphs of some numbers, or for all glyphs
    // if no list is given.
    fn select(
        self,
        alloc: A,
        kind: Kind,
        opened: Option<&'f FontOfKind<'f, 'a, A>>,
        numbers: Option<&'f [u16]>,
    ) -> Result<Selection<'f, 'a, A>, NoMemory>
        requires accepted { fault_of kind self.0 ≡ None }
        requires opened { IsOpenedFor kind self.0 (option_copied opened) }
        ensures selection { IfOk result (λ selection. selection ≡ (
          kind,
          (self.entry.0, asked self.entry.1 (option_copied numbers.entry)),
        )) }
        ensures memory { OnErr result (IsRefused A.refuses) }
    {
        let Seeds {
            charted,
            wanted,
            marks,
        } = self;
        let kept = mark_kept(alloc, kind, &charted, marks, opened, numbers)?;
        Ok(Selection {
            kind,
            charted,
            opened,
            wanted,
            numbers,
            kept,
        })
    }
}

impl<'f, 'a, A: Memory + Copy> Selection<'f, 'a, A> {
    /// Selects the wanted codes of a font, or all if no set is given, and the glyphs of these numbers, or all if no list
    /// is given. Numbers of glyphs that are not there do not count, nor do numbers at all in full cuts. All memory that is
    /// needed to keep them is asked for here.
    ///
    /// # Errors
    ///
    /// `NoMemory` if out of memory.
    pub fn new(
        alloc: A,
        font: &'f FontOfKind<'f, 'a, A>,
        wanted: Option<&'f Wanted<A>>,
        numbers: Option<&'f [u16]>,
    ) -> Result<Selection<'f, 'a, A>, NoMemory>
        ensures selection { IfOk result (λ selection. selection ≡ (
          font.entry.now.0,
          (
            font.entry.now.1,
            asked (option_copied wanted.entry) (option_copied numbers.entry),
          ),
        )) }
        ensures memory { OnErr result (IsRefused A.refuses) }
    {
        let seeds = Seeds::of(alloc, font.font(), wanted)?;
        Selection::of_seeds(alloc, font, seeds, numbers)
    }

    /// Makes the selection for the codes that the seeds are of, and for the glyphs of these numbers, or for all glyphs if
    /// no list is given.
    ///
    /// # Errors
    ///
    /// `NoMemory` if out of memory.
    pub(crate) fn of_seeds(
        alloc: A,
        font: &'f FontOfKind<'f, 'a, A>,
        seeds: Seeds<'f, 'a, A>,
        numbers: Option<&'f [u16]>,
    ) -> Result<Selection<'f, 'a, A>, NoMemory>
        requires { seeds.0 ≡ font.now.1 }
        ensures selection { IfOk result (λ selection. selection ≡ (
          font.entry.now.0,
          (font.entry.now.1, asked seeds.entry.1 (option_copied numbers.entry)),
        )) }
        ensures memory { OnErr result (IsRefused A.refuses) }
    {
        seeds.select(alloc, font.kind(), Some(font), numbers)
    }

    /// Selects all codes and all glyphs of a font, and lists the runs of its map, which is walked more than once.
    ///
    /// # Errors
    ///
    /// `NoMemory` if out of memory.
    pub fn with_runs(
        alloc: A,
        font: &'f FontOfKind<'f, 'a, A>,
    ) -> Result<Selection<'f, 'a, A>, NoMemory>
        ensures selection { IfOk result (λ selection.
            selection ≡ (font.entry.now.0, (font.entry.now.1, all_asked))) }
        ensures memory { OnErr result (IsRefused A.refuses) }
    {
        let charted = Charted::with_runs(alloc, font.font())?;
        let seeds = Seeds::in_chart(alloc, charted, None)?;
        Selection::of_seeds(alloc, font, seeds, None)
    }

    /// Selects the wanted codes of a font for a full cut, or all where no set is given.
    ///
    /// # Errors
    ///
    /// `NoMemory` if out of memory.
    #[tactic(auto, using(crate::proofs::SourceLemmas::full_accepted))]
    pub(crate) fn full(
        alloc: A,
        font: &'f Font<'a>,
        wanted: Option<&'f Wanted<A>>,
    ) -> Result<Selection<'f, 'a, A>, NoMemory>
        ensures selection { IfOk result (λ selection.
            selection ≡ (Full, (font.entry.now, codes_asked (option_copied wanted.entry)))) }
        ensures memory { OnErr result (IsRefused A.refuses) }
    {
        recall_accepted(font);
        let seeds = Seeds::of(alloc, font, wanted)?;
        seeds.select(alloc, Kind::Full, None, Some(&[]))
    }

    /// Returns the runs of the map of the font, which are all kept where all codes are wanted.
    ///
    /// # Errors
    ///
    /// `NoMemory` if out of memory, which is only asked for where the runs have not been listed.
    pub fn into_runs(self, alloc: A) -> Result<Vec<Run, A>, NoMemory>
        ensures runs { IfOk result (λ runs. AreRunsOf self.entry.1.0 runs.items) }
        ensures memory { OnErr result (IsRefused A.refuses) }
    {
        let Selection {
            kind: _,
            charted,
            opened: _,
            wanted: _,
            numbers: _,
            kept: _kept,
        } = self;
        charted.into_runs(alloc)
    }
}

impl<'f, 'a, A: Allocator> Selection<'f, 'a, A> {
    // Returns the table of a slot after those of the tables that every cut keeps, where a cut of the kind copies it.
    fn further(&self, slot: usize) -> Option<&[u8]>
        requires { KEPT_SLOTS ≤ slot }
        ensures table { MatchOption result (tables_of self.now.0 self.now.1.0 slot ≡ None)
            (λ b. tables_of self.now.0 self.now.1.0 slot ≡ Some b.now) }
        ensures small { MatchOption result Unit (λ b. length b.now ≤ MAX_FILE) }
    {
        match self.opened {
            Some(opened) => opened.further(slot),
            None => None,
        }
    }

    /// Returns the tables of the font that have something of each glyph, of which full cuts need none.
    pub(crate) fn divided(&self) -> Option<&OpenTables<'a, A>>
        ensures { MatchOption result (self.now.0 ≡ Full)
            (λ tables. AreOpen (tables_of self.now.0 self.now.1.0) tables.now) }
    {
        match self.opened {
            Some(opened) => Some(opened.divided()),
            None => None,
        }
    }
}

impl<'f, 'a, A: Allocator> Source for Selection<'f, 'a, A> {
    ghost use Rattle.font_subset.specs.KeptGlyphs.{selected};

    ghost content_of = { selected };

    fn recall_laws(&self) {
        let _font = self.charted.font();
    }

    fn copied(&self, slot: usize) -> Option<&[u8]> {
        if slot < SLOTS {
            return copied(self.charted.font(), slot);
        }
        self.further(slot)
    }

    fn head(&self) -> &[u8] {
        head(self.charted.font())
    }

    #[tactic(auto, using(crate::proofs::SourceLemmas::count_as))]
    fn glyph_count(&self) -> u16 {
        self.charted.font().tables().glyph_count()
    }

    fn next_run(&self, from: u32) -> Option<Run> {
        self.charted.run_from(self.wanted, from)
    }

    #[tactic(auto, using(crate::proofs::SourceLemmas::kept_is, crate::proofs::SourceLemmas::not_kept))]
    fn keeps(&self, g: u16) -> bool {
        g < self.charted.font().tables().glyph_count() && self.kept.has(g)
    }

    #[tactic(auto, using(crate::proofs::SourceLemmas::next_is))]
    fn next_kept(&self, from: u16) -> u16 {
        let _count = self.glyph_count();
        self.kept.next_from(from as usize) as u16
    }

    #[tactic(auto, using(crate::proofs::SourceLemmas::kept_below, crate::proofs::SourceLemmas::kept_outline))]
    fn outline_of(&self, g: u16) -> &[u8] {
        if g < self.charted.font().tables().glyph_count() {
            return outline(self.charted.font(), g);
        }
        &[]
    }
}

impl<'f, 'a, A: Allocator> Selection<'f, 'a, A> {
    /// Recalls for the prover that the font was accepted. Does nothing at run time.
    pub fn recall_accepted(&self)
        ensures { fault_of self.now.0 self.now.1.0 ≡ None }
    {
        let _kind = self.kind();
    }

    /// Returns the kind of cut.
    pub fn kind(&self) -> Kind
        ensures kind { result ≡ self.now.0 }

        // What opening the font has shown.
        ensures sound { fault_of self.now.0 self.now.1.0 ≡ None }
    {
        self.kind
    }

    /// Returns the glyphs that are kept.
    pub(crate) fn kept(&self) -> &Marks<A>
        ensures { IsKeptSet self.now.0 self.now.1.0 (wanted_in self.now.1.1) result.now }
    {
        &self.kept
    }

    /// Returns the outline of a glyph that all codes and all glyphs keep, as a file in cut form has it: with the zeros
    /// that fill it.
    pub fn written_outline(&self, g: u16) -> Option<&'a [u8]>
        requires form { IsCut (format_of self.now.0) self.now.1.0 }
        requires all { self.now.1.1 ≡ all_asked }
        ensures outline { MatchOption result
            ((content (font_of self.now.0 self.now.1.0) everything).outline g ≡ None)
            (λ b. (content (font_of self.now.0 self.now.1.0) everything).outline g ≡ Some b.now) }
        ensures small { MatchOption result Unit (λ b. length b.now ≤ MAX_FILE) }
    {
        if self.keeps(g) {
            return Some(outline(self.charted.font(), g));
        }
        None
    }

    /// Returns the file of the font.
    pub fn file(&self) -> &'a [u8]
        ensures file { result.now ≡ self.now.1.0 }

        // What opening the font has shown.
        ensures sound { font_fault self.now.1.0 ≡ None }
        ensures small { length result.now ≤ MAX_FILE }
    {
        self.charted.font().tables().directory().file()
    }
}
