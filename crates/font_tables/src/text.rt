//! The texts of refusals, byte for byte as `check` prints them.
ghost use Rattle.std.specs.Prelude.{◌≡◌, Some};
ghost use Rattle.font_tables.specs.Text.{table_error_number, table_error_text};

use crate::tables::TableError;
use sfnt_bytes::numbers;
use std::error::Error;
use std::fmt;

impl fmt::Display for TableError {
    ghost output = { λ e. Some (table_error_text e) };

    fn fmt<W: fmt::Write>(&self, f: &mut fmt::Formatter<W>) -> fmt::Result {
        match self {
            TableError::MissingTable(tag) => write!(f, "missing table {tag}"),
            TableError::BadHead => f.write_str("bad head"),
            TableError::BadMaxp => f.write_str("bad maxp"),
            TableError::BadHhea => f.write_str("bad hhea"),
            TableError::BadHmtx => f.write_str("bad hmtx"),
            TableError::BadLoca(index) => write!(f, "bad loca at {index}"),
        }
    }
}

impl Error for TableError {}

impl TableError {
    /// Returns the number of the refusal, 7 to 12.
    pub fn number(&self) -> u8
        ensures { result ≡ table_error_number self.now }
    {
        match self {
            TableError::MissingTable(_) => numbers::MISSING_TABLE,
            TableError::BadHead => numbers::BAD_HEAD,
            TableError::BadMaxp => numbers::BAD_MAXP,
            TableError::BadHhea => numbers::BAD_HHEA,
            TableError::BadHmtx => numbers::BAD_HMTX,
            TableError::BadLoca(_) => numbers::BAD_LOCA,
        }
    }
}
