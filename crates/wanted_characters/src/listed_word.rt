//! The words of lists of ranges: range words, and the forms that other subsetters and style sheets have beside
//! them. CSS Fonts Module Level 4, "Character range: the unicode-range descriptor".
use crate::sequence_set::is_selector;
use codes::{LAST_CODE, WordError, read_word};

// The most digits of a code, and of a code whose last digits are question marks.
const DIGITS: usize = 6;

// Returns what follows `U+` or `u+`, which may be left out.
fn without_prefix(word: &[u8]) -> &[u8] {
    let is_prefixed = matches!(word.first(), Some(b'U' | b'u')) && word.get(1) == Some(&b'+');
    if is_prefixed {
        word.get(2..).unwrap_or(&[])
    } else {
        word
    }
}

// Returns the code that hexadecimal digits write.
fn code_of(digits: &[u8]) -> Option<u32> {
    if digits.is_empty() || DIGITS < digits.len() {
        return None;
    }
    let mut code: u32 = 0;
    for &byte in digits {
        let digit = char::from(byte).to_digit(16)?;
        code = code.saturating_mul(16).saturating_add(digit);
    }
    Some(code)
}

// Returns the codes that digits write of which the last ones are question marks, which stand for any digit.
fn wildcard(word: &[u8]) -> Option<(u32, u32)> {
    let known = word.iter().position(|&byte| byte == b'?')?;
    let marks = word.get(known..)?;
    if DIGITS < word.len() || !marks.iter().all(|&byte| byte == b'?') {
        return None;
    }
    let code = if known == 0 {
        0
    } else {
        code_of(word.get(..known)?)?
    };
    let (mut first, mut last) = (code, code);
    for _ in 0..marks.len() {
        first = first.saturating_mul(16);
        last = last.saturating_mul(16).saturating_add(15);
    }
    Some((first, last))
}

// Returns the codes of one code or of two with a hyphen between them.
fn span(word: &[u8]) -> Option<(u32, u32)> {
    let Some(at) = word.iter().position(|&byte| byte == b'-') else {
        let code = code_of(word)?;
        return Some((code, code));
    };
    let first = code_of(word.get(..at)?)?;
    let last = code_of(without_prefix(word.get(at.saturating_add(1)..)?))?;
    Some((first, last))
}

// Returns the codes of a word that is no range word.
fn other_form(word: &str) -> Option<(u32, u32)> {
    if word == "*" {
        return Some((0, LAST_CODE));
    }
    let digits = without_prefix(word.as_bytes());
    match wildcard(digits) {
        Some(codes) => Some(codes),
        None => span(digits),
    }
}

/// Returns the first and the last code of a word of a list: a range word, or one of these forms, with `U+`,
/// `u+` or neither: `41`, `41-5A`, `41-U+5A`, `4??`. `*` is all codes.
///
/// # Errors
/// `BadRange` where it has one of these forms and its range is bad, `BadWord` for any other text.
pub fn read_listed(word: &str) -> Result<(u32, u32), WordError> {
    if let Ok(range) = read_word(word) {
        return Ok(range);
    }
    match other_form(word) {
        Some((first, last)) if first <= last && last <= LAST_CODE => Ok((first, last)),
        Some(_) => Err(WordError::BadRange),
        None => Err(WordError::BadWord),
    }
}

/// Returns the character and the selector of a word for a variation sequence: `U+845B+E0100`. There are none for any other
/// text, nor where the second code is no selector.
pub fn read_sequence(word: &str) -> Option<(u32, u32)> {
    let word = word.as_bytes();
    let digits = without_prefix(word);
    if digits.len() == word.len() {
        return None;
    }
    let at = digits.iter().position(|&byte| byte == b'+')?;
    let code = code_of(digits.get(..at)?)?;
    let selector = code_of(digits.get(at.saturating_add(1)..)?)?;
    if LAST_CODE < code || !is_selector(selector) {
        return None;
    }
    Some((code, selector))
}

/// Returns whether a word has the form of a range word, be its range good or bad, or is one for a variation sequence.
pub fn is_range_word(word: &str) -> bool {
    !matches!(read_word(word), Err(WordError::BadWord)) || read_sequence(word).is_some()
}
