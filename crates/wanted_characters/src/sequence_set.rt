//! Sets of variation sequences: pairs of a character and a selector that follows it at once. The Unicode Standard,
//! section 23.4, "Variation Selectors".
use crate::code_set::{CodeSet, count_of};
use std::alloc::{AllocError, Global};

/// The selectors of variations, from the first code to the last of each block.
pub const SELECTORS: [(u32, u32); 4] = [
    (0x180B, 0x180D),
    (0x180F, 0x180F),
    (0xFE00, 0xFE0F),
    (0xE_0100, 0xE_01EF),
];

// Returns how many selectors stand before a selector, and none for any other code.
fn place_of(code: u32) -> Option<usize> {
    let mut before: u32 = 0;
    for (first, last) in SELECTORS {
        if first <= code && code <= last {
            return Some(before.saturating_add(code - first) as usize);
        }
        before = before.saturating_add(last.saturating_sub(first).saturating_add(1));
    }
    None
}

// Returns the selector before which so many others stand.
fn selector_at(place: usize) -> Option<u32> {
    let mut left = u32::try_from(place).ok()?;
    for (first, last) in SELECTORS {
        let code = first.saturating_add(left);
        if code <= last {
            return Some(code);
        }
        left = code - last - 1;
    }
    None
}

/// Returns whether a code is a selector of variations.
pub(crate) fn is_selector(code: u32) -> bool {
    place_of(code).is_some()
}

/// A set of variation sequences. It has a bit for each code up to the greatest that has the selector, so that a text of
/// any length fills 36 MB at most.
pub struct SequenceSet {
    // The characters of each selector, up to the last selector that has one.
    by_selector: Vec<CodeSet>,
}

impl Drop for SequenceSet {
    fn drop(self) {
        let SequenceSet {
            by_selector: _by_selector,
        } = self;
    }
}

impl SequenceSet {
    /// Returns the set of no sequences.
    pub fn new(alloc: Global) -> SequenceSet {
        SequenceSet {
            by_selector: Vec::new(alloc),
        }
    }

    // Makes room for the characters of the selector at a place.
    fn reach(&mut self, alloc: Global, place: usize) -> Result<(), AllocError> {
        for _ in self.by_selector.len()..place.saturating_add(1) {
            self.by_selector.push(CodeSet::new(alloc))?;
        }
        Ok(())
    }

    /// Adds the sequence of a character and a selector, and nothing where the second code is no selector.
    ///
    /// # Errors
    /// `AllocError` if out of memory.
    pub fn add(&mut self, alloc: Global, code: u32, selector: u32) -> Result<(), AllocError> {
        let Some(place) = place_of(selector) else {
            return Ok(());
        };
        self.reach(alloc, place)?;
        match self.by_selector.get_mut(place) {
            Some(codes) => codes.add(code),
            None => Ok(()),
        }
    }

    // Adds the sequences of the selector at a place and of the characters of a set.
    fn add_row(&mut self, alloc: Global, place: usize, others: &CodeSet) -> Result<(), AllocError> {
        self.reach(alloc, place)?;
        match self.by_selector.get_mut(place) {
            Some(codes) => codes.add_all(alloc, others),
            None => Ok(()),
        }
    }

    /// Adds the sequences of another set.
    ///
    /// # Errors
    /// `AllocError` if out of memory.
    pub fn add_all(&mut self, alloc: Global, other: &SequenceSet) -> Result<(), AllocError> {
        for (place, codes) in other.by_selector.iter().enumerate() {
            self.add_row(alloc, place, codes)?;
        }
        Ok(())
    }

    /// Returns whether it has no sequence.
    pub fn is_empty(&self) -> bool {
        self.by_selector.is_empty()
    }

    /// Returns a place after those of all selectors that have a character.
    pub fn place_count(&self) -> usize {
        self.by_selector.len()
    }

    /// Returns the selector at a place, and its characters as ascending ranges.
    ///
    /// # Errors
    /// `AllocError` if out of memory.
    pub fn row_at(
        &self,
        alloc: Global,
        place: usize,
    ) -> Result<Option<(u32, Vec<(u32, u32)>)>, AllocError> {
        match (selector_at(place), self.by_selector.get(place)) {
            (Some(selector), Some(codes)) => Ok(Some((selector, codes.ranges(alloc)?))),
            _ => Ok(None),
        }
    }

    /// Returns how many sequences it has.
    ///
    /// # Errors
    /// `AllocError` if out of memory.
    pub fn count(&self, alloc: Global) -> Result<u32, AllocError> {
        let mut count: u32 = 0;
        for codes in &self.by_selector {
            count = count.saturating_add(count_of(&codes.ranges(alloc)?));
        }
        Ok(count)
    }

    /// Returns the sequences of which neither the character nor the selector is in a set.
    ///
    /// # Errors
    /// `AllocError` if out of memory.
    pub fn without(&self, alloc: Global, gone: &CodeSet) -> Result<SequenceSet, AllocError> {
        let mut left = SequenceSet::new(alloc);
        for (place, codes) in self.by_selector.iter().enumerate() {
            let is_gone = selector_at(place).is_some_and(|selector| gone.has(selector));
            let kept = if is_gone {
                CodeSet::new(alloc)
            } else {
                codes.without(alloc, gone)?
            };
            left.by_selector.push(kept)?;
        }
        Ok(left)
    }
}

/// The sequences of a text, of which some characters have come, or of a list.
#[derive(Drop)]
pub struct TextSequences {
    alloc: Global,
    found: SequenceSet,
    // The last character, which a selector may follow.
    before: Option<u32>,
}

impl TextSequences {
    pub fn new(alloc: Global) -> TextSequences {
        TextSequences {
            alloc,
            found: SequenceSet::new(alloc),
            before: None,
        }
    }

    /// Adds a sequence that is named.
    ///
    /// # Errors
    /// `AllocError` if out of memory.
    pub fn add(&mut self, code: u32, selector: u32) -> Result<(), AllocError> {
        self.found.add(self.alloc, code, selector)
    }

    /// Says that the next character is no selector of the last one.
    pub fn end_text(&mut self) {
        self.before = None;
    }

    /// Takes the next character of the text.
    ///
    /// # Errors
    /// `AllocError` if out of memory.
    pub fn take(&mut self, letter: char) -> Result<(), AllocError> {
        let code = letter as u32;
        let before = self.before;
        self.before = Some(code);
        match before {
            Some(before) if is_selector(code) => self.found.add(self.alloc, before, code),
            _ => Ok(()),
        }
    }

    /// Adds the sequences of the text to a set.
    ///
    /// # Errors
    /// `AllocError` if out of memory.
    pub fn end(self, sequences: &mut SequenceSet) -> Result<(), AllocError> {
        sequences.add_all(self.alloc, &self.found)
    }
}

/// Adds the sequences of texts.
///
/// # Errors
/// `AllocError` if out of memory.
pub fn add_sequences(
    alloc: Global,
    sequences: &mut SequenceSet,
    texts: &[&str],
) -> Result<(), AllocError> {
    let mut found = TextSequences::new(alloc);
    for &text in texts {
        found.end_text();
        for letter in text.chars() {
            found.take(letter)?;
        }
    }
    found.end(sequences)
}
