//! The texts of tags, findings and refusals, byte for byte as `check` prints them.
ghost use Rattle.std.specs.Prelude.{◌≡◌, ◌<◌, Some};
ghost use Rattle.std.specs.Char.{digit_char};
ghost use Rattle.std.specs.List.{list_all};
ghost use Rattle.sfnt_bytes.specs.Text.{error_number, error_text, finding_text, hex_text, is_printable, no_memory_text, tag_text};
ghost use Rattle.sfnt_bytes.specs.declared.numbers.TheConstants.{NO_MEMORY};

use crate::directory::{DirError, NoMemory};
use crate::findings::Finding;
use crate::numbers;
use crate::tag::Tag;
use std::error::Error;
use std::fmt;

fn are_printable(bytes: &[u8]) -> bool
    ensures { result ≡ list_all is_printable bytes.now }
{
    bytes.iter().all(|byte| (0x20..=0x7e).contains(byte))
}

fn hex_digit(digit: u8) -> u8
    requires { digit < 16 }
    ensures { result ≡ digit_char digit }
{
    if digit < 10 {
        b'0' + digit
    } else {
        b'a' + (digit - 10)
    }
}

fn hex_of(bytes: [u8; 4]) -> [u8; 10]
    ensures { result ≡ hex_text bytes }
{
    let [a, b, c, d] = bytes;
    [
        b'0',
        b'x',
        hex_digit(a / 16),
        hex_digit(a % 16),
        hex_digit(b / 16),
        hex_digit(b % 16),
        hex_digit(c / 16),
        hex_digit(c % 16),
        hex_digit(d / 16),
        hex_digit(d % 16),
    ]
}

/// The four bytes as they stand where all are printable ASCII, else `0x` and eight lower-case
/// hexadecimal digits.
impl fmt::Display for Tag {
    ghost output = { λ tag. Some (tag_text tag) };

    #[tactic(auto, unfolding(crate::specs::Text::tag_text))]
    fn fmt<W: fmt::Write>(&self, f: &mut fmt::Formatter<W>) -> fmt::Result {
        if are_printable(&self.0) {
            f.write_str(str::from_utf8(&self.0).map_err(|_| fmt::Error)?)
        } else {
            f.write_str(str::from_utf8(&hex_of(self.0)).map_err(|_| fmt::Error)?)
        }
    }
}

impl fmt::Display for Finding {
    ghost output = { λ finding. Some (finding_text finding) };

    fn fmt<W: fmt::Write>(&self, f: &mut fmt::Formatter<W>) -> fmt::Result {
        match self {
            Finding::Unsorted => f.write_str("unsorted"),
            Finding::SearchFields => f.write_str("search fields"),
            Finding::OutOfFile(tag) => write!(f, "out of file {tag}"),
            Finding::Unaligned(tag) => write!(f, "unaligned {tag}"),
            Finding::Padding(tag) => write!(f, "padding {tag}"),
            Finding::Checksum(tag) => write!(f, "checksum {tag}"),
            Finding::FileSum => f.write_str("file sum"),
        }
    }
}

impl fmt::Display for DirError {
    ghost output = { λ e. Some (error_text e) };

    fn fmt<W: fmt::Write>(&self, f: &mut fmt::Formatter<W>) -> fmt::Result {
        match self {
            DirError::FileTooLarge => f.write_str("file too large"),
            DirError::Truncated => f.write_str("truncated"),
            DirError::Collection => f.write_str("collection"),
            DirError::NotTrueType => f.write_str("not TrueType"),
            DirError::DuplicateTable(tag) => write!(f, "duplicate table {tag}"),
            DirError::TableOutOfFile(tag) => write!(f, "table out of file {tag}"),
        }
    }
}

impl Error for DirError {}

impl DirError {
    /// Returns the number of the refusal, 1 to 6.
    pub fn number(&self) -> u8
        ensures { result ≡ error_number self.now }
    {
        match self {
            DirError::FileTooLarge => numbers::FILE_TOO_LARGE,
            DirError::Truncated => numbers::TRUNCATED,
            DirError::Collection => numbers::COLLECTION,
            DirError::NotTrueType => numbers::NOT_TRUETYPE,
            DirError::DuplicateTable(_) => numbers::DUPLICATE_TABLE,
            DirError::TableOutOfFile(_) => numbers::TABLE_OUT_OF_FILE,
        }
    }
}

impl fmt::Display for NoMemory {
    ghost output = { λ _. Some no_memory_text };

    fn fmt<W: fmt::Write>(&self, f: &mut fmt::Formatter<W>) -> fmt::Result {
        f.write_str("no memory")
    }
}

impl Error for NoMemory {}

impl NoMemory {
    /// Returns the number of the refusal, 16.
    pub fn number(&self) -> u8
        ensures { result ≡ NO_MEMORY }
    {
        numbers::NO_MEMORY
    }
}
