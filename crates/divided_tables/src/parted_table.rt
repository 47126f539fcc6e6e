//! One divided table: what is told of it where it is open, and what is made of it. This is this project's own.
ghost use Rattle.std.specs.Prelude.{◌≡◌, [], length, option_copied, unwrap_or, None, Some, MatchOption};
ghost use Rattle.font_theory.specs.Content.{glyph_count};
ghost use Rattle.font_theory.specs.Parting.{Tables};
ghost use Rattle.font_theory.specs.declared.kinds.TheConstants.{SEQUENCES as SEQUENCE_SLOT};

use font_theory::SEQUENCES;
use font_write::Source;
use sfnt_bytes::{Memory, NoMemory};

/// The tables of a font by slot, but for those of layout, and its variation sequences.
pub trait TablesBySlot<'t> {
    ghost use Rattle.std.specs.Prelude.{◌≡◌, false, option_copied, None, Some, MatchOption};
    ghost use Rattle.font_theory.specs.Content.{glyph_count};
    ghost use Rattle.font_theory.specs.Parting.{Tables};
    ghost use Rattle.font_theory.specs.declared.kinds.TheConstants.{SEQUENCES as SEQUENCE_SLOT};
    ghost use Rattle.divided_tables.specs.PartedTable.{is_read_apart};

    /// The tables.
    ghost tables_in: { Self → Tables };

    /// Returns `numGlyphs`.
    fn glyph_count(&self) -> u16
        ensures { result ≡ glyph_count (tables_in self.now) };

    /// Returns the table of a slot.
    fn table(&self, slot: usize) -> Option<&'t [u8]>
        requires { is_read_apart slot ≡ false }
        ensures { option_copied result ≡ tables_in self.now slot };

    /// Returns the table of variation sequences, which is made of `cmap` and so may be held by this alone.
    fn sequences(&self) -> Option<&[u8]>
        ensures { MatchOption result (tables_in self.now SEQUENCE_SLOT ≡ None)
            (λ b. tables_in self.now SEQUENCE_SLOT ≡ Some b.now) };
}

/// The tables of a content.
#[derive(Drop)]
pub(crate) struct TablesOf<'t, S: Source> {
    source: &'t S,
}

impl<'t, S: Source> TablesOf<'t, S> {
    /// Takes a content.
    pub(crate) fn new(source: &'t S) -> TablesOf<'t, S>
        ensures { result.source.now ≡ source.entry.now }
    {
        TablesOf { source }
    }
}

impl<'t, S: Source> TablesBySlot<'t> for TablesOf<'t, S> {
    ghost tables_in = { λ t. (S.content_of t.source.now).copied };

    fn glyph_count(&self) -> u16 {
        self.source.glyph_count()
    }

    fn table(&self, slot: usize) -> Option<&'t [u8]> {
        self.source.copied(slot)
    }

    fn sequences(&self) -> Option<&[u8]> {
        self.source.copied(SEQUENCES)
    }
}

/// A divided table that is open, and with it all that cuts and joins need of tables of its kind: the part of a glyph is
/// what the table has of that glyph alone, and the frame all that is of no single glyph.
pub trait PartedTable: Sized {
    ghost use Rattle.std.specs.Prelude.{◌≡◌, ◌<◌, ◌≤◌, ℕ, [], Bool, false, length, nat_lt, unwrap_or, IfOk, IsTrue, OnErr};
    ghost use Rattle.std.specs.Option.{option_map, option_or};
    ghost use Rattle.std.specs.Str.{bytes_eq};
    ghost use Rattle.sfnt_bytes.specs.Memory.{IsRefused};
    ghost use Rattle.font_theory.specs.Kinds.{reduced};
    ghost use Rattle.font_theory.specs.Parting.{Parting, Tables, frames};
    ghost use Rattle.font_write.specs.declared.source.TheConstants.{MAX_TABLE};
    ghost use Rattle.divided_tables.specs.PartedTable.{GlyphParts, IsFine, IsUnionOf, alone};

    /// The slot of the table.
    ghost slot: { ℕ };

    /// How it is divided.
    ghost parting: { Parting };

    /// The tables of which it is refused, as it is bad in them.
    ghost refuses: { Tables → Bool };

    /// Whether it is the table of some tables.
    ghost is_open: { Tables → Self → Type 0 };

    /// What it has of single glyphs.
    ghost parts_in: { Self → GlyphParts };

    /// Tells whether a glyph has a part that is not empty.
    fn has(&self, g: u16) -> bool
        requires { g < (parts_in self.now).count }
        ensures { result ≡ nat_lt 0 (length ((parts_in self.now).part g)) };

    /// Tells whether some glyphs, from one on and below another, surely have no parts. It is quick for most glyphs of a
    /// cut.
    fn has_none(&self, from: u16, to: u16) -> bool
        requires order { from < to }
        requires within { to ≤ (parts_in self.now).count }
        ensures { IsTrue result → (g : ℕ) → from ≤ g → g < to →
            nat_lt 0 (length ((parts_in self.now).part g)) ≡ false };

    /// Tells whether a glyph has the same part in another table.
    fn is_same(&self, other: &Self, g: u16) -> bool
        requires first { g < (parts_in self.now).count }
        requires second { g < (parts_in other.now).count }
        ensures { result ≡ bytes_eq ((parts_in self.now).part g) ((parts_in other.now).part g) };

    /// Returns the frame of the table of a content, where there is a table.
    ///
    /// # Errors
    ///
    /// `NoMemory` if out of memory.
    fn frame<S: Source, A: Memory + Copy>(
        &self,
        alloc: A,
        source: &S,
    ) -> Result<Option<Vec<u8, A>>, NoMemory>
        requires opened { is_open (S.content_of source.now).copied self.now }
        requires fine { IsFine slot (S.content_of source.now).copied }
        ensures table { IfOk result (λ o. option_map (λ v. v.items) o
            ≡ frames (alone parting) (S.content_of source.now).copied slot) }
        ensures small { IfOk result (λ o. length (unwrap_or (option_map (λ v. v.items) o) []) ≤ MAX_TABLE) }
        ensures memory { OnErr result (IsRefused A.refuses) };

    /// Returns the table that a cut of a content has, with the parts of the glyphs that it keeps alone, or none where that
    /// is the table of the content.
    ///
    /// # Errors
    ///
    /// `NoMemory` if out of memory.
    fn kept<S: Source, A: Memory + Copy>(
        &self,
        alloc: A,
        source: &S,
    ) -> Result<Option<Vec<u8, A>>, NoMemory>
        requires opened { is_open (S.content_of source.now).copied self.now }
        requires fine { IsFine slot (S.content_of source.now).copied }
        ensures table { IfOk result (λ o.
            option_or (option_map (λ v. v.items) o) ((S.content_of source.now).copied slot)
            ≡ (reduced (alone parting) (S.content_of source.now)).copied slot) }
        ensures small { IfOk result (λ o. length (unwrap_or (option_map (λ v. v.items) o) []) ≤ MAX_TABLE) }
        ensures memory { OnErr result (IsRefused A.refuses) };

    /// Returns the table of the union of two contents with as many glyphs, or none where it is the table of the first with
    /// that of the second laid over it, each byte the bitwise or of both.
    ///
    /// # Errors
    ///
    /// `NoMemory` if out of memory.
    fn united<K: Source, L: Source, A: Memory + Copy>(
        &self,
        other: &Self,
        alloc: A,
        first: &K,
        second: &L,
    ) -> Result<Option<Vec<u8, A>>, NoMemory>
        requires opened { is_open (K.content_of first.now).copied self.now }
        requires fine { IsFine slot (K.content_of first.now).copied }
        requires other_opened { is_open (L.content_of second.now).copied other.now }
        requires other_fine { IsFine slot (L.content_of second.now).copied }
        requires count { (parts_in self.now).count ≡ (parts_in other.now).count }
        ensures table { IfOk result (λ o. IsUnionOf parting slot (K.content_of first.now) (L.content_of second.now)
            (option_map (λ v. v.items) o)) }
        ensures small { IfOk result (λ o. length (unwrap_or (option_map (λ v. v.items) o) []) ≤ MAX_TABLE) }
        ensures memory { OnErr result (IsRefused A.refuses) };
}

/// A divided table that is opened of tables by slot.
pub trait OpenFrom<'t, B: TablesBySlot<'t>>: PartedTable {
    ghost use Rattle.std.specs.Prelude.{◌≡◌, true, false, MatchOption};
    ghost use Rattle.divided_tables.specs.PartedTable.{ArePartsIn, is_bad_in};

    /// Opens the table, or returns none where it is refused, as it is bad.
    fn open(tables: &B) -> Option<Self>
        ensures { MatchOption result
            ((Self.refuses (B.tables_in tables.now) ≡ true)
            × (is_bad_in Self.slot (B.tables_in tables.now) ≡ true))
            (λ table. Self.is_open (B.tables_in tables.now) table
            × ArePartsIn Self.parting Self.slot (B.tables_in tables.now) (Self.parts_in table)
            × (Self.refuses (B.tables_in tables.now) ≡ false)) };
}
