//! Why no cut is made or sent. This is this project's own.
ghost use Rattle.std.specs.Prelude.{◌≡◌};
ghost use Rattle.font_write.specs.Text.{cut_error_number, cut_into_error_number};
ghost use Rattle.font_write.specs.declared.cut_error.CutError.TheVariants.{NoMemory as CutNoMemory};
ghost use Rattle.font_write.specs.declared.cut_error.CutIntoError.TheVariants.{NoMemory as IntoNoMemory};

use sfnt_bytes::{NoMemory, numbers};
use thiserror::Error;

/// Why no cut is made.
#[derive(Clone, Copy, Debug, PartialEq, Eq, Error)]
pub enum CutError {
    /// Out of memory.
    #[error("no memory")]
    NoMemory,
    /// The cut would have this number of bytes, more than [`MAX_FILE`](sfnt_bytes::MAX_FILE).
    #[error("too large {0}")]
    TooLarge(u64),
}

impl CutError {
    /// Returns the number of the refusal, 16 or 18.
    pub fn number(&self) -> u8
        ensures { result ≡ cut_error_number self.now }
    {
        match self {
            CutError::NoMemory => numbers::NO_MEMORY,
            CutError::TooLarge(_) => numbers::TOO_LARGE,
        }
    }
}

/// Why a cut is not sent.
#[derive(Clone, Copy, Debug, PartialEq, Eq, Error)]
pub enum CutIntoError {
    /// Out of memory. Nothing was sent.
    #[error("no memory")]
    NoMemory,
    /// The cut would have this number of bytes, more than [`MAX_FILE`](sfnt_bytes::MAX_FILE). Nothing was sent.
    #[error("too large {0}")]
    TooLarge(u64),
    /// A write failed after this number of bytes.
    #[error("write fault after {0}")]
    WriteFault(u64),
}

impl CutIntoError {
    /// Returns the number of the refusal, 16, 18 or 19.
    pub fn number(&self) -> u8
        ensures { result ≡ cut_into_error_number self.now }
    {
        match self {
            CutIntoError::NoMemory => numbers::NO_MEMORY,
            CutIntoError::TooLarge(_) => numbers::TOO_LARGE,
            CutIntoError::WriteFault(_) => numbers::WRITE_FAULT,
        }
    }
}

impl From<NoMemory> for CutError {
    ghost from_gives = { λ held error. error ≡ CutNoMemory };

    fn from(_error: NoMemory) -> CutError {
        CutError::NoMemory
    }
}

impl From<NoMemory> for CutIntoError {
    ghost from_gives = { λ held error. error ≡ IntoNoMemory };

    fn from(_error: NoMemory) -> CutIntoError {
        CutIntoError::NoMemory
    }
}
