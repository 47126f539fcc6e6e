//! Wanted sets of codes.
ghost use Rattle.std.specs.Prelude.{◌≡◌, ◌↔◌, Err, IfOk, MatchOption, OnErr, OnOk};
ghost use Rattle.sfnt_bytes.specs.Memory.{IsRefused};
ghost use Rattle.codes.specs.Text.{wanted_error_number, wanted_error_text};
ghost use Rattle.codes.specs.Wanted.{IsBadRange, IsRow, NoRow, all_codes, but_for, codes_between, either, member, no_codes};
ghost use Rattle.codes.specs.declared.wanted.WantedError.TheVariants.{BadRange, NoMemory};

use crate::code_points::LAST_CODE;
use crate::code_range::CodeRange;
use crate::ranges::{add_range, has_code, remove_range, row_by_hint};
use sfnt_bytes::{Memory, NoMemory, numbers};
use std::alloc::{Allocator, Global};
use std::cell::Cell;
use std::error::Error;
use std::fmt;
use std::marker::Model;

/// Why codes are not added to a set.
#[derive(Clone, Copy, Debug, PartialEq, Eq)]
pub enum WantedError {
    /// The first code is above the last, or the last is above 0x10FFFF.
    BadRange,
    /// Out of memory.
    NoMemory,
}

impl fmt::Display for WantedError {
    ghost use Rattle.std.specs.Prelude.{Some};

    ghost output = { λ error. Some (wanted_error_text error) };

    fn fmt<W: fmt::Write>(&self, f: &mut fmt::Formatter<W>) -> fmt::Result {
        match self {
            WantedError::BadRange => f.write_str("bad range"),
            WantedError::NoMemory => f.write_str("no memory"),
        }
    }
}

impl Error for WantedError {}

impl WantedError {
    /// Returns the number of the refusal, 15 or 16.
    pub fn number(&self) -> u8
        ensures { result ≡ wanted_error_number self.now }
    {
        match self {
            WantedError::BadRange => numbers::BAD_RANGE,
            WantedError::NoMemory => numbers::NO_MEMORY,
        }
    }
}

impl From<NoMemory> for WantedError {
    ghost from_gives = { λ held error. error ≡ NoMemory };

    fn from(_error: NoMemory) -> WantedError {
        WantedError::NoMemory
    }
}

/// A set of codes.
pub struct Wanted<A: Allocator = Global> {
    ranges: Vec<CodeRange, A>,
    // Where the range that was read last stands: a walk over the set goes on from there.
    hint: Cell<usize>,
}

// Its value is the list of ranges, which is seen by `member` alone.
impl<A: Allocator> Model for Wanted<A> {
    ghost use Rattle.std.specs.Prelude.{List};
    ghost use Rattle.codes.specs.Wanted.{AreSeparate};
    ghost use Rattle.codes.specs.declared.code_range.CodeRange.{CodeRange};

    ghost Value = { List CodeRange };

    ghost view = { λ w. w.ranges.items };

    ghost invariant = { λ w. AreSeparate 0 w.ranges.items };
}

impl<A: Allocator> Drop for Wanted<A> {
    fn drop(self) {
        let Wanted {
            ranges: _ranges,
            hint: _,
        } = self;
    }
}

impl<A: Allocator> Wanted<A> {
    /// Returns the empty set.
    pub fn new(alloc: A) -> Wanted<A>
        ensures { member result ≡ no_codes }
    {
        Wanted {
            ranges: Vec::new(alloc),
            hint: Cell::new(0),
        }
    }

    /// Returns whether a code is in the set.
    pub fn contains(&self, code: u32) -> bool
        ensures { result ≡ member self.now code }
    {
        has_code(self.ranges.as_slice(), code)
    }

    /// Returns the codes, from `from` on, of the first range of the set that ends at `from` or above it.
    pub fn row_from(&self, from: u32) -> Option<CodeRange>
        ensures { MatchOption result (NoRow (member self.now) from) (IsRow (member self.now) from) }
    {
        let (row, place) = row_by_hint(self.ranges.as_slice(), self.hint.get(), from);
        self.hint.set(place);
        row
    }
}

impl<A: Memory> Wanted<A> {
    /// Returns the set of all code points, 0 to 0x10FFFF.
    ///
    /// # Errors
    ///
    /// `NoMemory` if there is no memory for one range.
    pub fn all(alloc: A) -> Result<Wanted<A>, NoMemory>
        ensures all { IfOk result (λ wanted. member wanted ≡ all_codes) }
        ensures memory { OnErr result (IsRefused A.refuses) }
    {
        let mut ranges = Vec::new(alloc);
        let range = CodeRange {
            first: 0,
            last: LAST_CODE,
        };
        A::push(&mut ranges, range)?;
        Ok(Wanted {
            ranges,
            hint: Cell::new(0),
        })
    }

    /// Adds the codes from the first to the last, both included. A refusal leaves the set as it was.
    ///
    /// # Errors
    ///
    /// `BadRange` where the first code is above the last or the last above 0x10FFFF, and `NoMemory`
    /// if there is no memory for one range more.
    ///
    /// # Example
    ///
    /// From the test `bad_ranges_leave_the_set` of `table_tests`:
    ///
    /// ```
    /// let mut wanted = Wanted::new(rt.alloc());
    /// assert_eq!(rt; wanted.add(0x41, 0x42), Ok(()));
    /// assert_eq!(rt; wanted.add(0x42, 0x41), Err(WantedError::BadRange));
    /// assert_eq!(rt; wanted.add(0, 0x11_0000), Err(WantedError::BadRange));
    /// ```
    #[tactic(auto, using(crate::proofs::AddingLemmas::wanted_separate))]
    pub fn add(&mut self, first: u32, last: u32) -> Result<(), WantedError>
        ensures bad_range { (result ≡ Err BadRange) ↔ IsBadRange first last }
        ensures added { OnOk result (member self.new ≡ either (codes_between first last) (member self.old)) }
        ensures unchanged { OnErr result (member self.new ≡ member self.old) }
        ensures memory { result ≡ Err WantedError.NoMemory → IsRefused A.refuses }
    {
        if last < first || LAST_CODE < last {
            return Err(WantedError::BadRange);
        }
        add_range(&mut self.ranges, CodeRange { first, last })?;
        Ok(())
    }

    /// Takes the codes from the first to the last away, both included. A refusal leaves the set as it was.
    ///
    /// # Errors
    ///
    /// `BadRange` where the first code is above the last or the last above 0x10FFFF, and `NoMemory` if there is
    /// no memory for one range more: it is asked for only where codes stay below the first and above the last.
    #[tactic(auto, using(crate::proofs::RemovingLemmas::wanted_separate))]
    pub fn remove(&mut self, first: u32, last: u32) -> Result<(), WantedError>
        ensures bad_range { (result ≡ Err BadRange) ↔ IsBadRange first last }
        ensures removed { OnOk result
            (member self.new ≡ but_for (codes_between first last) (member self.old)) }
        ensures unchanged { OnErr result (member self.new ≡ member self.old) }
        ensures memory { result ≡ Err WantedError.NoMemory → IsRefused A.refuses }
    {
        if first <= last && last <= LAST_CODE {
            remove_range(&mut self.ranges, CodeRange { first, last })?;
            return Ok(());
        }
        Err(WantedError::BadRange)
    }
}
