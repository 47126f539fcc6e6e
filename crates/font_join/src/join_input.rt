//! The files of a join, as fonts. This is this project's own, and in no standard.
ghost use Rattle.std.specs.Prelude.{◌≡◌, Err, None, MatchResult};
ghost use Rattle.sfnt_bytes.specs.Memory.{IsRefused};
ghost use Rattle.font_file.specs.Font.{font_fault};
ghost use Rattle.font_theory.specs.Kinds.{format_of};
ghost use Rattle.font_join.specs.Inside.{IsFormRefusal, IsNoFont, join_error_of_open};
ghost use Rattle.font_join.specs.declared.join_error.JoinError.TheVariants.{NoMemory as JoinNoMemory};

use crate::join_error::{JoinError, Which};
use font_file::Font;
use font_subset::{FontOfKind, OpenError};
use font_theory::Kind;
use sfnt_bytes::Memory;

/// Opens one of two files.
///
/// # Errors
///
/// `Font` where it is no font that is accepted.
pub(crate) fn open_input<'a>(which: Which, file: &'a [u8]) -> Result<Font<'a>, JoinError>
    ensures { MatchResult result (λ font. (font ≡ file.now) × (font_fault file.now ≡ None))
        (IsNoFont which file.now) }
{
    match Font::open(file) {
        Ok(font) => Ok(font),
        Err(error) => Err(JoinError::Font(which, error)),
    }
}

// Returns the refusal of a join one of whose fonts is not opened for cuts of a kind.
fn unopened(which: Which, error: OpenError) -> JoinError
    ensures { result ≡ join_error_of_open which error }
{
    match error {
        OpenError::NoMemory => JoinError::NoMemory,
        OpenError::Refused(error) => JoinError::Font(which, error),
    }
}

/// Opens one of two accepted fonts for cuts of a kind.
///
/// # Errors
///
/// `Font` where its tables of layout or of variations are refused, of layout and variable cuts alone, and
/// `NoMemory` if out of memory, of layout cuts alone.
pub(crate) fn open_for_kind<'f, 'a, A: Memory + Copy>(
    alloc: A,
    kind: Kind,
    font: &'f Font<'a>,
    which: Which,
) -> Result<FontOfKind<'f, 'a, A>, JoinError>
    ensures exact { MatchResult result (λ opened. opened ≡ (kind, font.entry.now))
        (IsFormRefusal (format_of kind) which font.entry.now) }
    ensures memory { result ≡ Err JoinNoMemory → IsRefused A.refuses }
{
    match FontOfKind::open(alloc, kind, font) {
        Ok(opened) => Ok(opened),
        Err(error) => Err(unopened(which, error)),
    }
}
