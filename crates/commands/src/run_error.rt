//! What the runs share: their error, and how they send what they have made.
ghost use Rattle.std.specs.Prelude.{◌≡◌, false, true, take, IfErr, OnErr, OnOk};
ghost use Rattle.streams.specs.Outlet.{IsFlushed, WentOut, broken_of, fresh_of, written_of};
ghost use Rattle.commands.specs.Run.{run_error_of_cut, run_error_of_join, run_error_of_sent_join, run_error_of_open, run_error_of_read, run_error_number};
ghost use Rattle.commands.specs.declared.run_error.RunError.TheVariants.{Font, Memory, Write};
ghost use Rattle.commands.specs.declared.run_error.TheConstants.{NO_GLYPH as NO_GLYPH_NUMBER};

use font_file::FontError;
use font_join::{JoinAllError, JoinAllIntoError, JoinError, Which};
use font_subset::{CutIntoError, OpenError};
use sfnt_bytes::{NoMemory, numbers};
use std::alloc::AllocError;
use streams::{Flushes, Outlet, ReadError, WriteFault};
use thiserror::Error;

/// The number of the refusal of a number that is no glyph, which is its status for C too.
pub const NO_GLYPH: u8 = 102;

/// `NO_GLYPH` is this number.
pub fn no_glyph_number_is()
    ensures { NO_GLYPH_NUMBER ≡ 102 }
{}

/// Why a run was not done.
#[derive(Clone, Copy, Debug, PartialEq, Eq, Error)]
pub enum RunError {
    /// A read failed after this number of bytes.
    #[error("read fault after {0}")]
    Read(u64),
    /// Out of memory.
    #[error("no memory")]
    Memory,
    /// A write or flush failed after this number of bytes.
    #[error("write fault after {0}")]
    Write(u64),
    /// The font is refused.
    #[error(transparent)]
    Font(FontError),
    /// One of two files, by its place, is refused as a font.
    #[error("{1}")]
    OneOf(Which, FontError),
    /// The font has no glyph of this number.
    #[error("no glyph {0}")]
    NoGlyph(u16),
    /// The file to be written would have this number of bytes, more than a file may have.
    #[error("too large {0}")]
    TooLarge(u64),
    /// The files are not joined.
    #[error(transparent)]
    Join(JoinAllError),
}

impl RunError {
    /// Returns the number of the refusal.
    pub fn number(&self) -> u8
        ensures { result ≡ run_error_number self.now }
    {
        match self {
            RunError::Read(_) => numbers::READ_FAULT,
            RunError::Memory => numbers::NO_MEMORY,
            RunError::Write(_) => numbers::WRITE_FAULT,
            RunError::Font(error) => error.number(),
            RunError::OneOf(_, error) => error.number(),
            RunError::NoGlyph(_) => NO_GLYPH,
            RunError::TooLarge(_) => numbers::TOO_LARGE,
            RunError::Join(error) => error.number(),
        }
    }
}

impl From<ReadError> for RunError {
    ghost from_gives = { λ held error. error ≡ run_error_of_read held };

    fn from(error: ReadError) -> RunError {
        match error {
            ReadError::ReadFault(count) => RunError::Read(count),
            ReadError::NoMemory => RunError::Memory,
        }
    }
}

impl From<AllocError> for RunError {
    ghost from_gives = { λ held error. error ≡ Memory };

    fn from(_error: AllocError) -> RunError {
        RunError::Memory
    }
}

impl From<NoMemory> for RunError {
    ghost from_gives = { λ held error. error ≡ Memory };

    fn from(_error: NoMemory) -> RunError {
        RunError::Memory
    }
}

impl From<WriteFault> for RunError {
    ghost from_gives = { λ held error. error ≡ Write held.written };

    fn from(error: WriteFault) -> RunError {
        RunError::Write(error.written)
    }
}

impl From<FontError> for RunError {
    ghost from_gives = { λ held error. error ≡ Font held };

    fn from(error: FontError) -> RunError {
        RunError::Font(error)
    }
}

impl From<OpenError> for RunError {
    ghost from_gives = { λ held error. error ≡ run_error_of_open held };

    fn from(error: OpenError) -> RunError {
        match error {
            OpenError::NoMemory => RunError::Memory,
            OpenError::Refused(error) => RunError::Font(error),
        }
    }
}

impl From<CutIntoError> for RunError {
    ghost from_gives = { λ held error. error ≡ run_error_of_cut held };

    fn from(error: CutIntoError) -> RunError {
        match error {
            CutIntoError::NoMemory => RunError::Memory,
            CutIntoError::TooLarge(size) => RunError::TooLarge(size),
            CutIntoError::WriteFault(count) => RunError::Write(count),
        }
    }
}

// If out of memory, the error of a run is `Memory`, whatever step it comes at.
impl From<JoinAllError> for RunError {
    ghost from_gives = { λ held error. error ≡ run_error_of_join held };

    fn from(error: JoinAllError) -> RunError {
        match error {
            JoinAllError::At {
                step: _,
                error: JoinError::NoMemory,
            } => RunError::Memory,
            other => RunError::Join(other),
        }
    }
}

impl From<JoinAllIntoError> for RunError {
    ghost from_gives = { λ held error. error ≡ run_error_of_sent_join held };

    fn from(error: JoinAllIntoError) -> RunError {
        match error {
            JoinAllIntoError::NotJoined(error) => RunError::from(error),
            JoinAllIntoError::WriteFault(count) => RunError::Write(count),
        }
    }
}

/// Sends all of `bytes`, and flushes.
pub(crate) fn send<W: Flushes>(outlet: &mut Outlet<W>, bytes: &[u8]) -> Result<(), WriteFault>
    requires { fresh_of outlet.old ≡ true }
    ensures ok { OnOk result (WentOut W.contents outlet.old outlet.new bytes.now) }
    ensures whole { OnOk result (broken_of outlet.new ≡ false) }
    ensures flushed { OnOk result (IsFlushed W.held outlet.new) }
    ensures broken { OnErr result (broken_of outlet.new ≡ true) }
    ensures count { IfErr result (λ fault. fault.written ≡ written_of outlet.new) }
    ensures prefix { IfErr result
        (λ fault. WentOut W.contents outlet.old outlet.new (take fault.written bytes.now)) }
{
    outlet.put(bytes)?;
    outlet.finish()
}
