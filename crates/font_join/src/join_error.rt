//! Why files are not joined.
ghost use Rattle.std.specs.Prelude.{◌≡◌, Some};
ghost use Rattle.font_join.specs.Join.{join_error_of_cut};
ghost use Rattle.font_join.specs.JoinText.{code_text, join_all_error_number, join_all_error_text, join_all_into_error_number, join_error_number, join_error_text, which_text};
ghost use Rattle.font_join.specs.declared.join_error.JoinAllIntoError.TheVariants.{NotJoined};
ghost use Rattle.font_join.specs.declared.join_error.JoinError.TheVariants.{NoMemory as JoinNoMemory};

use font_file::FontError;
use font_write::CutError;
use sfnt_bytes::{NoMemory, Tag, numbers};
use std::error::Error;
use std::fmt;

/// One of the two files of a join.
#[derive(Clone, Copy, Debug, PartialEq, Eq)]
pub enum Which {
    /// The first file.
    First,
    /// The second file.
    Second,
}

impl fmt::Display for Which {
    ghost output = { λ which. Some (which_text which) };

    fn fmt<W: fmt::Write>(&self, f: &mut fmt::Formatter<W>) -> fmt::Result {
        match self {
            Which::First => write!(f, "first"),
            Which::Second => write!(f, "second"),
        }
    }
}

/// Why two files are not joined: the first refusal that applies, in this order. The tables that only cuts of a kind read
/// are refused right before `NotACut` of their file. `NoMemory` may come at any time after both fonts are accepted.
#[derive(Clone, Copy, Debug, PartialEq, Eq)]
pub enum JoinError {
    /// One file is no font that is accepted.
    Font(Which, FontError),
    /// One file is no cut in any form.
    NotACut(Which),
    /// One file lacks this table, the least such one, or its bytes are others.
    DifferentTable(Tag),
    /// Both files map this code, the least such one, to two glyphs.
    DifferentMapping(u32),
    /// Both files keep this glyph, the least such one, and it differs: its outline, or what cuts of the kind have of it
    /// besides.
    DifferentGlyph(u16),
    /// What both files have of single glyphs in this table, the least such one, is too long for it.
    TableTooLong(Tag),
    /// The joined file would have this number of bytes, more than [`MAX_FILE`](sfnt_bytes::MAX_FILE).
    TooLarge(u64),
    /// Out of memory.
    NoMemory,
}

impl JoinError {
    /// Returns the number of the refusal: that of the font's refusal, 20 to 23, 29, 18 or 16.
    pub fn number(&self) -> u8
        ensures { result ≡ join_error_number self.now }
    {
        match self {
            JoinError::Font(_, error) => error.number(),
            JoinError::NotACut(_) => numbers::NOT_A_CUT,
            JoinError::DifferentTable(_) => numbers::DIFFERENT_TABLE,
            JoinError::DifferentMapping(_) => numbers::DIFFERENT_MAPPING,
            JoinError::DifferentGlyph(_) => numbers::DIFFERENT_GLYPH,
            JoinError::TableTooLong(_) => numbers::TABLE_TOO_LONG,
            JoinError::TooLarge(_) => numbers::TOO_LARGE,
            JoinError::NoMemory => numbers::NO_MEMORY,
        }
    }
}

impl From<NoMemory> for JoinError {
    ghost from_gives = { λ held error. error ≡ JoinNoMemory };

    fn from(_error: NoMemory) -> JoinError {
        JoinError::NoMemory
    }
}

impl From<CutError> for JoinError {
    ghost from_gives = { λ held error. error ≡ join_error_of_cut held };

    fn from(error: CutError) -> JoinError {
        match error {
            CutError::NoMemory => JoinError::NoMemory,
            CutError::TooLarge(size) => JoinError::TooLarge(size),
        }
    }
}

// A code, in four upper-case hexadecimal digits or more.
#[derive(Clone, Copy)]
struct Code(u32);

impl fmt::Display for Code {
    ghost output = { λ c. Some (code_text c.0) };

    fn fmt<W: fmt::Write>(&self, f: &mut fmt::Formatter<W>) -> fmt::Result {
        let code = self.0;
        if code < 0x10 {
            write!(f, "000{code:X}")
        } else if code < 0x100 {
            write!(f, "00{code:X}")
        } else if code < 0x1000 {
            write!(f, "0{code:X}")
        } else {
            write!(f, "{code:X}")
        }
    }
}

impl fmt::Display for JoinError {
    ghost output = { λ error. Some (join_error_text error) };

    fn fmt<W: fmt::Write>(&self, f: &mut fmt::Formatter<W>) -> fmt::Result {
        match self {
            JoinError::Font(_, error) => write!(f, "{error}"),
            JoinError::NotACut(which) => write!(f, "not a cut: {which}"),
            JoinError::DifferentTable(tag) => write!(f, "different table {tag}"),
            JoinError::DifferentMapping(code) => write!(f, "different mapping U+{}", Code(*code)),
            JoinError::DifferentGlyph(glyph) => write!(f, "different glyph {glyph}"),
            JoinError::TableTooLong(tag) => write!(f, "table too long {tag}"),
            JoinError::TooLarge(size) => write!(f, "too large {size}"),
            JoinError::NoMemory => f.write_str("no memory"),
        }
    }
}

impl Error for JoinError {}

/// Why the files of a list are not joined.
#[derive(Clone, Copy, Debug, PartialEq, Eq)]
pub enum JoinAllError {
    /// The list is empty.
    NothingToJoin,
    /// The join of all files before this one with this one was refused. `step` is its index in the list;
    /// step 0 joins the first file with itself.
    At { step: usize, error: JoinError },
}

impl JoinAllError {
    /// Returns the number of the refusal: 24, or that of the join.
    pub fn number(&self) -> u8
        ensures { result ≡ join_all_error_number self.now }
    {
        match self {
            JoinAllError::NothingToJoin => numbers::NOTHING_TO_JOIN,
            JoinAllError::At { step: _, error } => error.number(),
        }
    }
}

impl fmt::Display for JoinAllError {
    ghost output = { λ error. Some (join_all_error_text error) };

    fn fmt<W: fmt::Write>(&self, f: &mut fmt::Formatter<W>) -> fmt::Result {
        match self {
            JoinAllError::NothingToJoin => f.write_str("nothing to join"),
            JoinAllError::At { step: _, error } => write!(f, "{error}"),
        }
    }
}

impl Error for JoinAllError {}

/// Why the join of a list of files is not sent.
#[derive(Clone, Copy, Debug, PartialEq, Eq, thiserror::Error)]
pub enum JoinAllIntoError {
    /// The files are not joined. Nothing was sent.
    #[error("{0}")]
    NotJoined(JoinAllError),
    /// A write failed after this number of bytes.
    #[error("write fault after {0}")]
    WriteFault(u64),
}

impl From<JoinAllError> for JoinAllIntoError {
    ghost from_gives = { λ held error. error ≡ NotJoined held };

    fn from(error: JoinAllError) -> JoinAllIntoError {
        JoinAllIntoError::NotJoined(error)
    }
}

impl JoinAllIntoError {
    /// Returns the number of the refusal: that of the join, or 19.
    pub fn number(&self) -> u8
        ensures { result ≡ join_all_into_error_number self.now }
    {
        match self {
            JoinAllIntoError::NotJoined(error) => error.number(),
            JoinAllIntoError::WriteFault(_) => numbers::WRITE_FAULT,
        }
    }
}
