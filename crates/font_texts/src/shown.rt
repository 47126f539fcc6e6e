//! Texts of the caller in messages.
use std::fmt;

/// A text whose control characters are shown by their numbers, so that no message changes the terminal.
#[derive(Clone, Copy)]
pub struct Shown<'a>(pub &'a str);

impl fmt::Display for Shown<'_> {
    fn fmt<W: fmt::Write>(&self, f: &mut fmt::Formatter<W>) -> fmt::Result {
        for letter in self.0.chars() {
            if letter.is_control() {
                let number = letter as u32;
                write!(f, "\\x{number:02x}")?;
            } else {
                f.write_char(letter)?;
            }
        }
        Ok(())
    }
}

// How many bytes of a word are shown.
const LONGEST: usize = 200;

// How many bytes a character has at most.
const CHARACTER: usize = 4;

/// A word of the caller, of which the first 200 bytes at most are shown, as [`Shown`] shows them.
#[derive(Clone, Copy)]
pub struct ShownWord<'a>(pub &'a str);

// Returns the beginning of a longer word that is shown, which ends between two characters.
fn beginning(word: &str) -> &str {
    for back in 0..CHARACTER {
        if let Some(begins) = word.get(..LONGEST - back) {
            return begins;
        }
    }
    ""
}

impl fmt::Display for ShownWord<'_> {
    fn fmt<W: fmt::Write>(&self, f: &mut fmt::Formatter<W>) -> fmt::Result {
        let word = self.0;
        if word.len() <= LONGEST {
            let whole = Shown(word);
            return write!(f, "{whole}");
        }
        let begins = Shown(beginning(word));
        write!(f, "{begins}..")
    }
}

// Returns whether a character is seen where it is printed, and changes nothing of the text around it. Those that only
// change how text runs, those for private use and those beyond the planes of characters are not. Unicode, chapter 23.
fn is_seen(letter: char) -> bool {
    !letter.is_control()
        && !letter.is_whitespace()
        && !matches!(
            letter as u32,
            0xAD | 0x200B..=0x200F | 0x2028..=0x202E | 0x2060..=0x206F | 0xE000..=0xF8FF | 0xFE00..=0xFE0F
                | 0xFEFF | 0xFFF0..=0xFFFF | 0xE_0000..=0x10_FFFF
        )
}

/// Returns the character of a code where a message can show it.
pub fn shown_character(code: u32) -> Option<char> {
    char::from_u32(code).filter(|letter| is_seen(*letter))
}
