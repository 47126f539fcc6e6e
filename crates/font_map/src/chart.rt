//! A mapping that is quick to walk, in whatever order its subtable stands.
ghost use Rattle.std.specs.Prelude.{◌≡◌, ◌*◌, IfOk, MatchOption, OnErr};
ghost use Rattle.sfnt_bytes.specs.Memory.{IsRefusedUpTo};
ghost use Rattle.codes.specs.CharacterMap.{IsCharacterMap, mapped_codes, restricted};
ghost use Rattle.codes.specs.declared.code_points.TheConstants.{CODES};
ghost use Rattle.font_map.specs.Mapping.{mapping_of};
ghost use Rattle.codes.specs.Runs.{IsRun, NoRun};
ghost use Rattle.codes.specs.Wanted.{member};

use crate::laid_out::LaidOut;
use crate::mapping::Mapping;
use crate::within::wanted_run;
use codes::{Pieces, Run, Wanted, mapped_count, next_run};
use sfnt_bytes::{Memory, NoMemory};
use std::alloc::{Allocator, Global};
use std::cell::Cell;
use std::marker::Model;

/// A mapping that is quick to walk: where its subtable stands out of order, a list of the glyphs of all
/// codes is kept beside it.
pub struct Chart<'a, A: Allocator = Global> {
    mapping: &'a Mapping<'a>,
    laid_out: Option<LaidOut<A>>,
    // Where the last group that was read stands: a walk over the map goes on from there, and a wrong
    // place costs a search alone.
    hint: Cell<usize>,
}

// Its value is that of the mapping.
impl<'a, A: Allocator> Model for Chart<'a, A> {
    ghost use Rattle.std.specs.Prelude.{◌≡◌, ℕ, List, IfSome, slice_index};
    ghost use Rattle.font_map.specs.Mapping.{mapping_of};

    ghost Value = { List ℕ × ℕ };

    ghost view = { λ c. c.mapping.now };

    ghost invariant = { λ c. IfSome c.laid_out (λ l. slice_index l
        ≡ mapping_of c.mapping.now.0 c.mapping.now.1) };
}

impl<'a, A: Allocator> Drop for Chart<'a, A> {
    fn drop(self) {
        let Chart {
            mapping: _,
            laid_out: _laid_out,
            hint: _,
        } = self;
    }
}

impl<'a, A: Memory + Copy> Chart<'a, A> {
    /// Makes the chart of a mapping. It asks for memory only where the subtable stands out of order.
    ///
    /// # Errors
    ///
    /// `NoMemory` if there is no room for two bytes for each code, or for fewer.
    pub fn of(alloc: A, mapping: &'a Mapping<'a>) -> Result<Chart<'a, A>, NoMemory>
        ensures mapping { IfOk result (λ chart. chart ≡ mapping.entry.now) }
        ensures memory { OnErr result (IsRefusedUpTo A.refuses (2 * CODES)) }
    {
        if mapping.is_ordered() {
            return Ok(Chart {
                mapping,
                laid_out: None,
                hint: Cell::new(0),
            });
        }
        let laid_out = LaidOut::of(alloc, mapping)?;
        Ok(Chart {
            mapping,
            laid_out: Some(laid_out),
            hint: Cell::new(0),
        })
    }
}

impl<'a, A: Allocator> Chart<'a, A> {
    /// Returns the glyph of a code, 0 where it is not mapped.
    pub fn glyph(&self, code: u32) -> u16
        ensures { result ≡ mapping_of self.now.0 self.now.1 code }
    {
        match &self.laid_out {
            Some(laid_out) => laid_out.glyph(code),
            None => self.mapping.glyph(code),
        }
    }

    /// Returns how many codes are mapped.
    pub fn mapped_count(&self) -> u32
        ensures { result ≡ mapped_codes (mapping_of self.now.0 self.now.1) }
    {
        mapped_count(self)
    }

    /// Returns the run that begins at the least mapped code not below `from`: as long as neighbouring
    /// codes lie on neighbouring glyphs.
    pub fn next_run(&self, from: u32) -> Option<Run>
        ensures run { MatchOption result
            (NoRun (mapping_of self.now.0 self.now.1) from)
            (IsRun (mapping_of self.now.0 self.now.1) from) }

        // Keeps the fact that `Mapping::choose` proved.
        ensures map { IsCharacterMap (mapping_of self.now.0 self.now.1) }
    {
        let _chosen = self.mapping.chosen();
        next_run(self, from)
    }

    /// Returns the run that begins at the least mapped code of a set that is not below `from`: as long
    /// as neighbouring codes of the set lie on neighbouring glyphs.
    pub fn wanted_run<B: Allocator>(&self, wanted: &Wanted<B>, from: u32) -> Option<Run>
        ensures { MatchOption result
            (NoRun (restricted (member wanted.now) (mapping_of self.now.0 self.now.1)) from)
            (IsRun (restricted (member wanted.now) (mapping_of self.now.0 self.now.1)) from) }
    {
        wanted_run(self, wanted, from)
    }
}

impl<'a, A: Allocator> Pieces for Chart<'a, A> {
    ghost use Rattle.font_map.specs.Mapping.{mapping_of};

    ghost map_of = { λ m. mapping_of m.0 m.1 };

    fn piece(&self, from: u32) -> Option<Run> {
        match &self.laid_out {
            Some(laid_out) => laid_out.piece(from),
            None => {
                let (piece, hint) = self.mapping.piece_by_hint(self.hint.get(), from);
                self.hint.set(hint);
                piece
            }
        }
    }
}
