//! The outlines that a union has taken, by glyph.
ghost use Rattle.std.specs.Prelude.{◌≡◌, ◌≢◌, ◌<◌, ◌≤◌, ℕ, find, length, None, Some, IfOk, MatchOption, OnErr, option_copied, slice_set};
ghost use Rattle.std.specs.List.{range_with_len};
ghost use Rattle.sfnt_bytes.specs.Memory.{IsRefused};
ghost use Rattle.sfnt_bytes.specs.declared.directory.TheConstants.{MAX_FILE};
ghost use Rattle.font_glyph.specs.RecordMap.{union_of};
ghost use Rattle.font_tables.specs.Fields.{glyph_count_of};
ghost use Rattle.font_theory.specs.Content.{content, everything};
ghost use Rattle.font_theory.specs.Cut.{IsCut};
ghost use Rattle.font_theory.specs.Kinds.{font_of, format_of};
ghost use Rattle.font_join.specs.Union.{HaveLength, is_other, listed_outline};
ghost use Rattle.font_join.specs.Inside.{AreTaken};

use crate::difference::is_same;
use crate::listed::Listed;
use font_write::Source;
use sfnt_bytes::{Memory, NoMemory};
use std::alloc::Allocator;
use std::marker::Model;

/// For each glyph its outline in some file, or none; and the length of all of them together.
pub(crate) struct Outlines<'a, A: Allocator> {
    outlines: Vec<Option<&'a [u8]>, A>,
    bytes: u64,
}

// Its value is the list of the outlines.
impl<'a, A: Allocator> Model for Outlines<'a, A> {
    ghost use Rattle.std.specs.Prelude.{ℕ, List, Option, map, option_copied};
    ghost use Rattle.font_join.specs.Union.{HaveLength};

    ghost Value = { List (Option (List ℕ)) };

    ghost view = { λ o. map (λ x. option_copied x) o.outlines.items };

    ghost invariant = { λ o. HaveLength (map (λ x. option_copied x) o.outlines.items) o.bytes };
}

impl<'a, A: Allocator> Drop for Outlines<'a, A> {
    fn drop(self) {
        let Outlines {
            outlines: _outlines,
            bytes: _,
        } = self;
    }
}

impl<'a, A: Memory + Copy> Outlines<'a, A> {
    /// Returns a list with no outline, for glyphs below `count`.
    pub(crate) fn new(alloc: A, count: u16) -> Result<Outlines<'a, A>, NoMemory>
        ensures count { IfOk result (λ outlines. length outlines ≡ count) }
        ensures none { IfOk result (λ outlines. (g : ℕ) → listed_outline outlines g ≡ None) }
        ensures memory { OnErr result (IsRefused A.refuses) }
    {
        let outlines = alloc.filled(None, count as usize)?;
        Ok(Outlines { outlines, bytes: 0 })
    }

    /// Returns the outlines of a file in cut form.
    pub(crate) fn of_file<B: Allocator>(
        alloc: A,
        file: &Listed<'_, 'a, B>,
    ) -> Result<Outlines<'a, A>, NoMemory>
        requires { IsCut (format_of file.now.0) file.now.1 }
        ensures count { IfOk result (λ outlines. length outlines ≡ glyph_count_of file.now.1) }
        ensures outlines { IfOk result (λ outlines. (g : ℕ) → listed_outline outlines g
            ≡ (content (font_of file.now.0 file.now.1) everything).outline g) }
        ensures memory { OnErr result (IsRefused A.refuses) }
    {
        let count = file.glyph_count();
        let mut outlines = Outlines::new(alloc, count)?;
        // There is nothing yet that the outlines could differ from.
        let _other = outlines.take(file, count);
        Ok(outlines)
    }
}

impl<'a, A: Allocator> Outlines<'a, A> {
    // Returns what is kept at the place of a glyph.
    fn kept_at(&self, g: u16) -> Option<&'a [u8]>
        requires { g < length self.now }
        ensures { option_copied result ≡ listed_outline self.now g }
    {
        self.outlines[g as usize]
    }

    /// Returns the outline of a glyph, where it has one.
    pub(crate) fn at(&self, g: u16) -> Option<&'a [u8]>
        requires { g < length self.now }
        ensures outline { option_copied result ≡ listed_outline self.now g }
        ensures small { MatchOption result Unit (λ b. length b.now ≤ MAX_FILE) }
    {
        // None of those that are counted is too large.
        let _bytes = self.bytes();
        self.kept_at(g)
    }

    /// Returns the length of all outlines together, in bytes.
    pub(crate) fn bytes(&self) -> u64
        ensures { HaveLength self.now result }
    {
        self.bytes
    }

    // Sets the outline of a glyph that has none.
    fn set(&mut self, g: u16, outline: &'a [u8])
        requires within { g < length self.old }
        requires none { listed_outline self.old g ≡ None }
        requires small { length outline.now ≤ MAX_FILE }
        ensures { self.new ≡ slice_set self.old g (Some outline.now) }
    {
        self.outlines[g as usize] = Some(outline);
        self.bytes += outline.len() as u64;
    }

    // Takes the outline of a glyph, where it has none yet. Returns whether it has another one.
    fn take_one<B: Allocator>(&mut self, file: &Listed<'_, 'a, B>, g: u16) -> bool
        requires form { IsCut (format_of file.now.0) file.now.1 }
        requires within { g < length self.old }
        ensures differs { result ≡ is_other (listed_outline self.old)
            (content (font_of file.now.0 file.now.1) everything).outline g }
        ensures count { length self.new ≡ length self.old }
        ensures taken { listed_outline self.new g ≡ union_of (listed_outline self.old)
            (content (font_of file.now.0 file.now.1) everything).outline g }
        ensures others { (h : ℕ) → h ≢ g → listed_outline self.new h ≡ listed_outline self.old h }
    {
        let Some(outline) = file.written_outline(g) else {
            return false;
        };
        if let Some(taken) = self.at(g) {
            return !is_same(taken, outline);
        }
        self.set(g, outline);
        false
    }

    /// Takes the outlines of a file in cut form, of each glyph below `count` that has none yet, and
    /// returns the first glyph that has another one. Those after that glyph are not taken.
    pub(crate) fn take<B: Allocator>(&mut self, file: &Listed<'_, 'a, B>, count: u16) -> Option<u16>
        requires form { IsCut (format_of file.now.0) file.now.1 }
        requires count { length self.old ≡ count }
        ensures differs { result ≡ find (is_other (listed_outline self.old)
            (content (font_of file.now.0 file.now.1) everything).outline) (range_with_len 0 count) }
        ensures taken { result ≡ None → AreTaken self.old self.new
            (content (font_of file.now.0 file.now.1) everything).outline count }
    {
        let end = count.min(file.glyph_count());
        let mut g = file.next_kept(0);
        while g < end {
            if self.take_one(file, g) {
                return Some(g);
            }
            g = file.next_kept(g + 1);
        }
        None
    }
}
