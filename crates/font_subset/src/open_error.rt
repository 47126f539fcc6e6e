//! Why a font is not opened for cuts of a kind. This is this project's own.
ghost use Rattle.std.specs.Prelude.{◌≡◌};
ghost use Rattle.font_subset.specs.Text.{open_error_number};
ghost use Rattle.font_subset.specs.declared.open_error.OpenError.TheVariants.{NoMemory as OpenNoMemory};

use font_file::FontError;
use sfnt_bytes::{NoMemory, numbers};
use thiserror::Error;

/// Why a font is not opened for cuts of a kind, which comes of layout and variable cuts alone.
#[derive(Clone, Copy, Debug, PartialEq, Eq, Error)]
pub enum OpenError {
    /// Out of memory.
    #[error("no memory")]
    NoMemory,
    /// Its tables of layout, or of variations, are refused.
    #[error("{0}")]
    Refused(FontError),
}

impl OpenError {
    /// Returns the number of the refusal: 16, or that of the refused table.
    pub fn number(&self) -> u8
        ensures { result ≡ open_error_number self.now }
    {
        match self {
            OpenError::NoMemory => numbers::NO_MEMORY,
            OpenError::Refused(error) => error.number(),
        }
    }
}

impl From<NoMemory> for OpenError {
    ghost from_gives = { λ held error. error ≡ OpenNoMemory };

    fn from(_error: NoMemory) -> OpenError {
        OpenError::NoMemory
    }
}
