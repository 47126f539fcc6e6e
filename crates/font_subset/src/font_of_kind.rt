//! A font as cuts of a kind read it, this project's own.
ghost use Rattle.std.specs.Prelude.{◌≡◌, ◌<◌, ◌≤◌, ℕ, Bool, false, true, length, Err, None, Some, IfOk, MatchOption, MatchResult};
ghost use Rattle.sfnt_bytes.specs.Memory.{IsRefused};
ghost use Rattle.sfnt_bytes.specs.declared.directory.TheConstants.{MAX_FILE};
ghost use Rattle.sfnt_bytes.specs.declared.tag.TheConstants.{SLOTS as KEPT_SLOTS};
ghost use Rattle.font_theory.specs.Kinds.{fault_of, tables_of};
ghost use Rattle.font_theory.specs.declared.kinds.Kind.TheVariants.{Full, Lean};
ghost use Rattle.font_file.specs.Font.{font_fault};
ghost use Rattle.divided_tables.specs.DividedTables.{AreOpen};
ghost use Rattle.font_subset.specs.Inside.{slots_of};
ghost use Rattle.font_subset.specs.OpenedFont.{IsOpenRefusal};
ghost use Rattle.font_subset.specs.declared.open_error.OpenError.TheVariants.{NoMemory as OpenNoMemory};

use crate::accepted::{copied, recall_accepted};
use crate::further_tables::FurtherTables;
use crate::open_error::OpenError;
use divided_tables::OpenTables;
use font_file::{Font, FontError};
use font_theory::Kind;
use sfnt_bytes::{Memory, SLOTS};
use std::alloc::{Allocator, Global};
use std::marker::Model;

/// A font that was opened for cuts of a kind. What such cuts have of its tables of layout and of variations has been read,
/// and may serve many cuts.
pub struct FontOfKind<'f, 'a, A: Allocator = Global> {
    tables: FurtherTables<'f, 'a, A>,
    // Those that have something of each glyph, as the kind reads them.
    divided: OpenTables<'a, A>,
}

// Its value is the kind, and the file of the font.
impl<'f, 'a, A: Allocator> Model for FontOfKind<'f, 'a, A> {
    ghost use Rattle.std.specs.Prelude.{ℕ, List};
    ghost use Rattle.font_theory.specs.declared.kinds.Kind.{Kind};
    ghost use Rattle.font_subset.specs.Inside.{IsOpenedForKind};

    ghost Value = { Kind × List ℕ };

    ghost view = { λ f. f.tables };

    ghost invariant = { λ f. IsOpenedForKind f.tables.0 f.tables.1 f.divided };
}

impl<'f, 'a, A: Allocator> Drop for FontOfKind<'f, 'a, A> {
    fn drop(self) {
        let FontOfKind {
            tables: _tables,
            divided: _divided,
        } = self;
    }
}

impl<'f, 'a, A: Allocator> FontOfKind<'f, 'a, A> {
    // Takes an accepted font for cuts that read no tables of layout or of variations.
    fn plain(kind: Kind, font: &'f Font<'a>) -> FontOfKind<'f, 'a, A>
        requires { slots_of kind ≡ KEPT_SLOTS }
        ensures opened { result ≡ (kind, font.entry.now) }
        ensures sound { fault_of kind font.entry.now ≡ None }
    {
        recall_accepted(font);
        let tables = FurtherTables::unread(kind, font);
        match OpenTables::unsequenced(&tables) {
            Some(divided) => FontOfKind { tables, divided },
            // What is refused is read by other cuts alone.
            None => unreachable!(),
        }
    }

    /// Takes an accepted font for full cuts. It asks for no memory.
    pub fn full(font: &'f Font<'a>) -> FontOfKind<'f, 'a, A>
        ensures { result ≡ (Full, font.entry.now) }
    {
        FontOfKind::plain(Kind::Full, font)
    }

    /// Takes an accepted font for lean cuts. It asks for no memory.
    pub fn lean(font: &'f Font<'a>) -> FontOfKind<'f, 'a, A>
        ensures { result ≡ (Lean, font.entry.now) }
    {
        FontOfKind::plain(Kind::Lean, font)
    }

    /// Recalls for the prover that the font was accepted. Does nothing at run time.
    pub fn recall_accepted(&self)
        ensures { fault_of self.now.0 self.now.1 ≡ None }
    {
        let _kind = self.kind();
    }

    /// Returns the kind of cut.
    pub fn kind(&self) -> Kind
        ensures kind { result ≡ self.now.0 }

        // What opening the font has shown.
        ensures sound { fault_of self.now.0 self.now.1 ≡ None }
    {
        self.tables.kind()
    }

    /// Returns the font.
    pub fn font(&self) -> &'f Font<'a>
        ensures font { result.now ≡ self.now.1 }

        // What opening the font has shown.
        ensures sound { font_fault self.now.1 ≡ None }
    {
        self.tables.font()
    }

    /// Returns the table of a slot after those of the tables that every cut keeps, where a cut of the kind copies it.
    pub(crate) fn further(&self, slot: usize) -> Option<&[u8]>
        requires { KEPT_SLOTS ≤ slot }
        ensures table { MatchOption result (tables_of self.now.0 self.now.1 slot ≡ None)
            (λ b. tables_of self.now.0 self.now.1 slot ≡ Some b.now) }
        ensures small { MatchOption result Unit (λ b. length b.now ≤ MAX_FILE) }
    {
        self.tables.table(slot)
    }

    /// Returns the tables that have something of each glyph, as cuts of the kind read them.
    pub(crate) fn divided(&self) -> &OpenTables<'a, A>
        ensures { AreOpen (tables_of self.now.0 self.now.1) result.now }
    {
        &self.divided
    }

    /// Returns the table of a slot, where a cut of the kind copies it.
    pub fn copied(&self, slot: usize) -> Option<&[u8]>
        ensures table { MatchOption result (tables_of self.now.0 self.now.1 slot ≡ None)
            (λ b. tables_of self.now.0 self.now.1 slot ≡ Some b.now) }
        ensures small { MatchOption result Unit (λ b. length b.now ≤ MAX_FILE) }
    {
        if slot < SLOTS {
            return copied(self.font(), slot);
        }
        self.further(slot)
    }
}

impl<'f, 'a, A: Memory + Copy> FontOfKind<'f, 'a, A> {
    // Opens an accepted font for cuts that read tables of layout.
    fn open_further(
        alloc: A,
        kind: Kind,
        font: &'f Font<'a>,
    ) -> Result<FontOfKind<'f, 'a, A>, OpenError>
        requires { KEPT_SLOTS < slots_of kind }
        ensures exact { MatchResult result (λ opened. opened ≡ (kind, font.entry.now))
            (IsOpenRefusal kind font.entry.now) }
        ensures sound { IfOk result (λ _. fault_of kind font.entry.now ≡ None) }
        ensures memory { result ≡ Err OpenNoMemory → IsRefused A.refuses }
    {
        recall_accepted(font);
        let tables = FurtherTables::read(alloc, kind, font)?;
        match OpenTables::open(alloc, &tables)? {
            Some(divided) => Ok(FontOfKind { tables, divided }),
            None => Err(OpenError::Refused(FontError::BadVariations)),
        }
    }

    /// Opens an accepted font for cuts of a kind. Of full and lean cuts there is nothing to test, and no memory is
    /// asked for. For layout cuts its tables of layout have to stand once at most, within the file; for variable cuts
    /// those of variations too, and its `gvar` has to be readable.
    ///
    /// # Errors
    ///
    /// `NoMemory` if out of memory, and `Refused` with the first refusal that applies, of
    /// layout and variable cuts alone.
    pub fn open(
        alloc: A,
        kind: Kind,
        font: &'f Font<'a>,
    ) -> Result<FontOfKind<'f, 'a, A>, OpenError>
        ensures exact { MatchResult result (λ opened. opened ≡ (kind, font.entry.now))
            (IsOpenRefusal kind font.entry.now) }
        ensures sound { IfOk result (λ _. fault_of kind font.entry.now ≡ None) }
        ensures memory { result ≡ Err OpenNoMemory → IsRefused A.refuses }
    {
        match kind {
            Kind::Full | Kind::Lean => Ok(FontOfKind::plain(kind, font)),
            Kind::Layout | Kind::Variable => FontOfKind::open_further(alloc, kind, font),
        }
    }
}
