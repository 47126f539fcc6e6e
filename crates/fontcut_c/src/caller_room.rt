//! The file of a source at the front of the caller's room.
ghost use Rattle.std.specs.Prelude.{◌≡◌, ◌+◌, ◌≤◌, MatchResult, length};
ghost use Rattle.font_theory.specs.File.{current_writing, file};
ghost use Rattle.font_write.specs.WholeFile.{IsFileSize};
ghost use Rattle.fontcut_c.specs.Inside.{IsFileInRoom, IsLargerFile, IsPutAt, IsSmallFile, RefusesFile};

use crate::filled::fill;
use crate::refusal::Refusal;
use font_write::{CURRENT, Size, Source, file_size, measured, plan_of};

/// Writes the file of a source, which has been measured, to the front of room, and returns its length.
/// It asks for no memory. Refused with that length, where there is less room.
pub(crate) fn write_sized<S: Source>(source: &S, size: Size, out: &mut [u8]) -> Result<u64, u64>
    requires { IsFileSize (S.content_of source.now) size }
    ensures { MatchResult result
        (IsFileInRoom (file current_writing (S.content_of source.now)) out.old out.new)
        (λ size. (out.new ≡ out.old)
        × IsLargerFile (file current_writing (S.content_of source.now)) (length out.old) size) }
{
    if (out.len() as u64) < size.bytes {
        return Err(size.bytes);
    }
    let plan = plan_of(source, CURRENT, size);
    fill(source, &plan, &mut out[..size.bytes as usize]);
    Ok(size.bytes)
}

/// Writes the file of a source to the front of room, and returns its length. It asks for no memory.
pub(crate) fn write_to<S: Source>(source: &S, out: &mut [u8]) -> Result<u64, Refusal>
    ensures { MatchResult result
        (IsFileInRoom (file current_writing (S.content_of source.now)) out.old out.new)
        (λ refusal. (out.new ≡ out.old)
        × RefusesFile (file current_writing (S.content_of source.now)) (length out.old) refusal) }
{
    let size = measured(source).map_err(Refusal::TooLarge)?;
    write_sized(source, size, out).map_err(Refusal::SmallRoom)
}

/// Writes the file of a source, which is not too large, to room from a place on, and returns its length. It asks for
/// no memory.
pub(crate) fn fill_at<S: Source>(source: &S, at: usize, out: &mut [u8]) -> usize
    requires small { IsSmallFile (file current_writing (S.content_of source.now)) }
    requires room { at + length (file current_writing (S.content_of source.now)) ≤ length out.old }
    ensures { IsPutAt (file current_writing (S.content_of source.now)) at out.old out.new result }
{
    let size = file_size(source, CURRENT);
    let plan = plan_of(source, CURRENT, size);
    let end = at + size.bytes as usize;
    fill(source, &plan, &mut out[at..end]);
    size.bytes as usize
}
