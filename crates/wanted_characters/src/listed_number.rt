//! The words of lists of glyph numbers: one number, or two with a hyphen between them, as HarfBuzz's subsetter takes
//! them.
ghost use Rattle.std.specs.Prelude.{◌≤◌};

use crate::code_set::CodeSet;
use std::alloc::{AllocError, Global};

/// The greatest number that a glyph can have.
pub const LAST_GLYPH: u32 = 0xFFFF;

// The most digits of a number.
const DIGITS: usize = 5;

// Returns the number that digits of a base write, which is 10 or 16.
fn number_of(digits: &[u8], base: u32) -> Option<u32>
    requires least { 2 ≤ base }
    requires most { base ≤ 36 }
{
    if digits.is_empty() || DIGITS < digits.len() {
        return None;
    }
    let mut number: u32 = 0;
    for &byte in digits {
        let digit = char::from(byte).to_digit(base)?;
        number = number.saturating_mul(base).saturating_add(digit);
    }
    Some(number)
}

// Returns the number that a word is: decimal digits, or `0x` and hexadecimal ones. Decimal digits do not begin with a
// zero, since HarfBuzz reads these as octal.
fn glyph_of(word: &[u8]) -> Option<u32> {
    if word.first() != Some(&b'0') || word.len() == 1 {
        return number_of(word, 10);
    }
    if !matches!(word.get(1), Some(b'x' | b'X')) {
        return None;
    }
    number_of(word.get(2..)?, 16)
}

/// Returns the first and the last number of a word of a list of glyph numbers: `5`, `7-9`, `0x1F`. There are none for
/// any other text, nor where the first number is above the last or the last above [`LAST_GLYPH`].
pub fn read_numbers(word: &str) -> Option<(u32, u32)> {
    let word = word.as_bytes();
    let (first, last) = match word.iter().position(|&byte| byte == b'-') {
        Some(at) => (word.get(..at)?, word.get(at.saturating_add(1)..)?),
        None => (word, word),
    };
    let (first, last) = (glyph_of(first)?, glyph_of(last)?);
    if last < first || LAST_GLYPH < last {
        return None;
    }
    Some((first, last))
}

// Puts the numbers of a range at the end of a list. Those above the greatest number of a glyph are left out.
fn push_range(numbers: &mut Vec<u16>, first: u32, last: u32) -> Result<(), AllocError> {
    for number in first..last.min(LAST_GLYPH) + 1 {
        if let Ok(number) = u16::try_from(number) {
            numbers.push(number)?;
        }
    }
    Ok(())
}

/// Returns the glyph numbers of a set in ascending order.
///
/// # Errors
/// `AllocError` if out of memory.
pub fn numbers_of(alloc: Global, glyphs: &CodeSet) -> Result<Vec<u16>, AllocError> {
    let mut numbers = Vec::new(alloc);
    for (first, last) in glyphs.ranges(alloc)? {
        push_range(&mut numbers, first, last)?;
    }
    Ok(numbers)
}
