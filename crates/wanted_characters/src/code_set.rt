//! Sets of codes that come range by range or code by code, in any order, from words and texts of any length.
use codes::{LAST_CODE, Wanted};
use std::alloc::{AllocError, Global};

/// A set of codes: the ranges that came in rising order, and a bit for each code up to the greatest of the
/// others. Most sets are given in rising order, and need no bits. A range that goes between others moves
/// those above it, so that time would grow with the square of the number of ranges that do not rise.
pub struct CodeSet {
    rising: Wanted,
    // The code after the last one of `rising`.
    next: u32,
    bits: Vec<u32>,
}

impl Drop for CodeSet {
    fn drop(self) {
        let CodeSet {
            rising: _rising,
            next: _,
            bits: _bits,
        } = self;
    }
}

// Puts a range after others, or lets the last of them go on where they touch.
fn push_range(ranges: &mut Vec<(u32, u32)>, first: u32, last: u32) -> Result<(), AllocError> {
    if let Some(range) = ranges.last_mut() {
        if range.1.checked_add(1) == Some(first) {
            range.1 = last;
            return Ok(());
        }
    }
    Ok(ranges.push((first, last))?)
}

// Puts the codes of one word of bits after others, a range for each of its groups of ones.
fn push_word(ranges: &mut Vec<(u32, u32)>, start: u32, word: u32) -> Result<(), AllocError> {
    let mut left = word;
    for _ in 0..32 {
        if left == 0 {
            break;
        }
        let low = left.trailing_zeros();
        let filled = left | (left.wrapping_sub(1));
        let high = filled.trailing_ones().saturating_sub(1);
        push_range(
            ranges,
            start.saturating_add(low),
            start.saturating_add(high),
        )?;
        left &= left.wrapping_add(left & left.wrapping_neg());
    }
    Ok(())
}

// Makes room for the bits of the codes up to a given one.
fn reach(bits: &mut Vec<u32>, code: u32) -> Result<(), AllocError> {
    let needed = (code / 32) as usize + 1;
    for _ in bits.len()..needed {
        bits.push(0)?;
    }
    Ok(())
}

// Sets the bits of the codes from the first to the last, which is at most the last code point.
fn set_bits(bits: &mut Vec<u32>, first: u32, last: u32) -> Result<(), AllocError> {
    reach(bits, last)?;
    for at in first / 32..last / 32 + 1 {
        let low = if at == first / 32 { first % 32 } else { 0 };
        let high = if at == last / 32 { last % 32 } else { 31 };
        if let Some(word) = bits.get_mut(at as usize) {
            *word |= (u32::MAX << low) & (u32::MAX >> (31 - high));
        }
    }
    Ok(())
}

/// Returns the number of codes of ranges that do not overlap.
pub fn count_of(ranges: &[(u32, u32)]) -> u32 {
    let mut count: u32 = 0;
    for &(first, last) in ranges {
        count = count.saturating_add(last.saturating_sub(first).saturating_add(1));
    }
    count
}

impl CodeSet {
    /// Returns the set of no codes.
    pub fn new(alloc: Global) -> CodeSet {
        CodeSet {
            rising: Wanted::new(alloc),
            next: 0,
            bits: Vec::new(alloc),
        }
    }

    /// Adds a code. A number above 0x10FFFF is left out.
    ///
    /// # Errors
    /// `AllocError` if out of memory.
    pub fn add(&mut self, code: u32) -> Result<(), AllocError> {
        if code <= LAST_CODE {
            reach(&mut self.bits, code)?;
        }
        if let Some(word) = self.bits.get_mut((code / 32) as usize) {
            *word |= 1 << (code % 32);
        }
        Ok(())
    }

    /// Adds the codes from the first to the last. Numbers above 0x10FFFF are left out.
    ///
    /// # Errors
    /// `AllocError` if out of memory.
    pub fn add_range(&mut self, first: u32, last: u32) -> Result<(), AllocError> {
        let last = last.min(LAST_CODE);
        if last < first {
            return Ok(());
        }
        if first < self.next {
            return set_bits(&mut self.bits, first, last);
        }
        self.next = last + 1;
        // This is a good range, so only memory can be refused.
        self.rising.add(first, last).map_err(|_| AllocError)
    }

    /// Adds the codes of another set.
    ///
    /// # Errors
    /// `AllocError` if out of memory.
    pub fn add_all(&mut self, alloc: Global, other: &CodeSet) -> Result<(), AllocError> {
        for (first, last) in other.ranges(alloc)? {
            self.add_range(first, last)?;
        }
        Ok(())
    }

    /// Returns whether it has a code.
    pub fn has(&self, code: u32) -> bool {
        let word = self.bits.get((code / 32) as usize).copied().unwrap_or(0);
        if word >> (code % 32) & 1 == 1 {
            return true;
        }
        match self.rising.row_from(code) {
            Some(range) => range.first <= code,
            None => false,
        }
    }

    // Returns a bit for each code up to the greatest.
    fn all_bits(&self, alloc: Global) -> Result<Vec<u32>, AllocError> {
        let mut bits = Vec::new(alloc);
        bits.extend_from_slice(&self.bits)?;
        let mut from: u32 = 0;
        for _ in 0..=LAST_CODE {
            let Some(range) = self.rising.row_from(from) else {
                break;
            };
            set_bits(&mut bits, range.first, range.last)?;
            from = range.last.saturating_add(1);
        }
        Ok(bits)
    }

    /// Returns whether it has no code.
    pub fn is_empty(&self) -> bool {
        self.next == 0 && self.bits.is_empty()
    }

    /// Returns the codes that are not in another set.
    ///
    /// # Errors
    /// `AllocError` if out of memory.
    pub fn without(&self, alloc: Global, other: &CodeSet) -> Result<CodeSet, AllocError> {
        let mut bits = self.all_bits(alloc)?;
        for (word, gone) in bits.iter_mut().zip(&other.all_bits(alloc)?) {
            *word &= !gone;
        }
        Ok(CodeSet {
            rising: Wanted::new(alloc),
            next: 0,
            bits,
        })
    }

    /// Returns the codes as ranges, in ascending order, that neither overlap nor touch.
    ///
    /// # Errors
    /// `AllocError` if out of memory.
    pub fn ranges(&self, alloc: Global) -> Result<Vec<(u32, u32)>, AllocError> {
        let mut ranges = Vec::new(alloc);
        let mut start: u32 = 0;
        for &word in &self.all_bits(alloc)? {
            if word != 0 {
                push_word(&mut ranges, start, word)?;
            }
            start = start.saturating_add(32);
        }
        Ok(ranges)
    }

    /// Returns the codes as a wanted set.
    ///
    /// # Errors
    /// `AllocError` if out of memory.
    pub fn into_wanted(self, alloc: Global) -> Result<Wanted, AllocError> {
        if self.bits.is_empty() {
            let CodeSet {
                rising,
                next: _,
                bits: _bits,
            } = self;
            return Ok(rising);
        }
        let mut wanted = Wanted::new(alloc);
        for (first, last) in self.ranges(alloc)? {
            wanted.add(first, last).map_err(|_| AllocError)?;
        }
        Ok(wanted)
    }
}
