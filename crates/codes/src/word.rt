//! Words: ranges of codes as text.
ghost use Rattle.std.specs.Prelude.{◌≡◌, ℕ, MatchOption, MatchResult};
ghost use Rattle.codes.specs.Text.{word_error_number};
ghost use Rattle.codes.specs.Wanted.{IsBadRange};
ghost use Rattle.codes.specs.Word.{IsRefusedWord, IsWord, SpellsCode, WritesCodes};

use crate::code_points::LAST_CODE;
use sfnt_bytes::numbers;
use thiserror::Error;

/// Why a text names no range of codes.
#[derive(Clone, Copy, Debug, PartialEq, Eq, Error)]
pub enum WordError {
    /// The text is no range word.
    #[error("bad word")]
    BadWord,
    /// The text is a range word whose first code is above its last, or whose last code is above
    /// 0x10FFFF.
    #[error("bad range")]
    BadRange,
}

impl WordError {
    /// Returns the number of the refusal, 15 or 26.
    pub fn number(&self) -> u8
        ensures { result ≡ word_error_number self.now }
    {
        match self {
            WordError::BadWord => numbers::BAD_WORD,
            WordError::BadRange => numbers::BAD_RANGE,
        }
    }
}

// Returns the code that 1 to 6 hexadecimal digits write.
fn read_code(digits: &str) -> Option<u32>
    ensures { MatchOption result ((code : ℕ) → SpellsCode digits.now code → ⊥) (SpellsCode digits.now) }
{
    let digits = digits.as_bytes();
    if digits.is_empty() || 6 < digits.len() {
        return None;
    }
    let mut code = 0;
    for i in 0..digits.len() {
        let Some(digit) = char::from(digits[i]).to_digit(16) else {
            return None;
        };
        code = code * 16 + digit;
    }
    Some(code)
}

// Returns one code as a range, or two with `-` between.
fn read_codes(text: &str) -> Option<(u32, u32)>
    ensures { MatchOption result ((first last : ℕ) → WritesCodes text.now first last → ⊥)
        (λ range. WritesCodes text.now range.0 range.1) }
{
    // Most words name one code: in these no `-` is looked for.
    if let Some(code) = read_code(text) {
        return Some((code, code));
    }
    let Some((first, last)) = text.split_once('-') else {
        return None;
    };
    let Some(first) = read_code(first) else {
        return None;
    };
    let Some(last) = read_code(last) else {
        return None;
    };
    Some((first, last))
}

/// Returns the first and the last code of a range word: `all`, `U+` and 1 to 6 hexadecimal digits of
/// either case, or `U+`, digits, `-` and digits.
///
/// # Errors
///
/// `BadWord` for any other text, and `BadRange` for a range word whose first code is above its last or
/// whose last code is above 0x10FFFF.
pub fn read_word(word: &str) -> Result<(u32, u32), WordError>
    ensures { MatchResult result
        (λ range. IsWord word.now range.0 range.1 × (IsBadRange range.0 range.1 → ⊥))
        (IsRefusedWord word.now) }
{
    if word == "all" {
        return Ok((0, LAST_CODE));
    }
    let Some(text) = word.strip_prefix("U+") else {
        return Err(WordError::BadWord);
    };
    let Some((first, last)) = read_codes(text) else {
        return Err(WordError::BadWord);
    };
    if last < first || LAST_CODE < last {
        return Err(WordError::BadRange);
    }
    Ok((first, last))
}
