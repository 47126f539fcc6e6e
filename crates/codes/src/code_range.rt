//! A range of codes, this project's own.
ghost use Rattle.std.specs.Prelude.{◌≡◌};

use crate::word::{WordError, read_word};
use std::fmt;
use std::str::FromStr;

/// The codes from the first to the last, both included. Any two numbers may stand here. A range read from a text
/// begins at or below its last code, which is at most 0x10FFFF. In memory it is laid out as `fontcut_range` of the
/// library for C.
///
/// # Example
///
/// From the test `ranges_of_texts` of `table_tests`:
///
/// ```
/// let range: CodeRange = "U+41-5A".parse()?;
/// assert_eq!(rt; (range.first, range.last), (0x41, 0x5A));
/// ```
#[repr(C)]
#[derive(Clone, Copy, Debug, PartialEq, Eq)]
pub struct CodeRange {
    /// The first code.
    pub first: u32,
    /// The last code.
    pub last: u32,
}

/// Reads a range word, as [`read_word`] does.
///
/// # Errors
///
/// Those of [`read_word`].
impl FromStr for CodeRange {
    ghost use Rattle.std.specs.Prelude.{MatchResult};
    ghost use Rattle.codes.specs.Wanted.{IsBadRange};
    ghost use Rattle.codes.specs.Word.{IsRefusedWord, IsWord};

    type Err = WordError;

    ghost from_str_gives = { λ word result. MatchResult result
        (λ range. IsWord word range.first range.last × (IsBadRange range.first range.last → ⊥))
        (IsRefusedWord word) };

    fn from_str(word: &str) -> Result<CodeRange, WordError> {
        let (first, last) = read_word(word)?;
        Ok(CodeRange { first, last })
    }
}

/// Writes the word of a range: `U+41-5A`, or `U+41` where it has one code.
impl fmt::Display for CodeRange {
    ghost use Rattle.std.specs.Prelude.{Some};
    ghost use Rattle.codes.specs.Word.{range_word};

    ghost output = { λ range. Some (range_word range) };

    fn fmt<W: fmt::Write>(&self, f: &mut fmt::Formatter<W>) -> fmt::Result {
        let (first, last) = (self.first, self.last);
        if first == last {
            write!(f, "U+{first:X}")
        } else {
            write!(f, "U+{first:X}-{last:X}")
        }
    }
}
