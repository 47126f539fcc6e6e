//! The file of a source in one of its profiles: measured, in memory, sent, and compared. OpenType 1.9,
//! Organization of an OpenType Font.
ghost use Rattle.std.specs.Prelude.{◌≡◌, ◌≤◌, Err, length, false, IfErr, IfOk, MatchResult, OnOk, IsTrue, true, ◌↔◌};
ghost use Rattle.sfnt_bytes.specs.declared.directory.TheConstants.{MAX_FILE};
ghost use Rattle.font_theory.specs.File.{file, writing_of, current_writing};
ghost use Rattle.font_write.specs.Plan.{IsSize};
ghost use Rattle.font_write.specs.WholeFile.{IsFileRefusal, IsFileSize, IsMeasured, IsTooLarge, IsWritten, StopsFile};
ghost use Rattle.streams.specs.Outlet.{WentOut, broken_of, fresh_of};

use crate::cut_error::{CutError, CutIntoError};
use crate::plan::{Plan, plan_of};
use crate::same::is_file_of;
use crate::size::{Size, file_size};
use crate::source::Source;
use crate::vec_sink::write_file;
use crate::writer::send_file;
use font_theory::Profile;
use sfnt_bytes::{MAX_FILE, Memory, NoMemory};
use std::io::Write;
use streams::Outlet;

/// The profile that is written.
pub const CURRENT: Profile = Profile::Second;

/// The profile that was written before.
pub const OLD: Profile = Profile::First;

/// Counts a source, or returns the length of its file as an error where that is too large. It asks for no
/// memory.
///
/// # Errors
///
/// The length of the file, where that is more than [`MAX_FILE`].
pub fn measured<S: Source>(source: &S) -> Result<Size, u64>
    ensures { MatchResult result (IsFileSize (S.content_of source.now))
        (IsTooLarge (file current_writing (S.content_of source.now))) }
{
    let size = file_size(source, CURRENT);
    if size.bytes > MAX_FILE {
        return Err(size.bytes);
    }
    Ok(size)
}

// Plans the file of a source, or returns its length as an error where that is too large.
fn measure<S: Source>(source: &S) -> Result<(Plan, u64), u64>
    ensures { MatchResult result (IsMeasured (S.content_of source.now))
        (IsTooLarge (file current_writing (S.content_of source.now))) }
{
    match measured(source) {
        Ok(size) => Ok((plan_of(source, CURRENT, size), size.bytes)),
        Err(size) => Err(size),
    }
}

/// Returns the file of a source in one vector, for which memory is asked once, when its size is known.
///
/// # Errors
///
/// `TooLarge` where the file has more than [`MAX_FILE`] bytes, and `NoMemory` if there is no memory for the file.
pub fn file_in_memory<S: Source, A: Memory>(alloc: A, source: &S) -> Result<Vec<u8, A>, CutError>
    ensures exact { MatchResult result
        (λ v. IsWritten (file current_writing (S.content_of source.now)) v.items)
        (IsFileRefusal (file current_writing (S.content_of source.now))) }
    ensures memory { result ≡ Err CutError.NoMemory →
        A.refuses (length (file current_writing (S.content_of source.now))) }
{
    match measure(source) {
        Ok((plan, size)) => match write_file(alloc, source, &plan, size as usize) {
            Ok(file) => Ok(file),
            Err(NoMemory) => Err(CutError::NoMemory),
        },
        Err(size) => Err(CutError::TooLarge(size)),
    }
}

/// Sends the file of a source, and returns its length. It asks for no memory.
///
/// # Errors
///
/// `TooLarge` where the file has more than [`MAX_FILE`] bytes: nothing was sent. `WriteFault` where a write
/// failed: the outlet is broken, and a front of the file went out.
pub fn send_whole<S: Source, W: Write>(source: &S, out: &mut Outlet<W>) -> Result<u64, CutIntoError>
    requires { fresh_of out.old ≡ true }
    ensures size { IfOk result (λ size. size ≡ length (file current_writing (S.content_of source.now))) }
    ensures small { OnOk result (length (file current_writing (S.content_of source.now)) ≤ MAX_FILE) }
    ensures sends { OnOk result (WentOut W.contents out.old out.new
        (file current_writing (S.content_of source.now))) }
    ensures unbroken { OnOk result (broken_of out.new ≡ false) }
    ensures stops { IfErr result (StopsFile W.contents out.old out.new
        (file current_writing (S.content_of source.now))) }
{
    let (plan, bytes) = match measure(source) {
        Ok(measured) => measured,
        Err(size) => return Err(CutIntoError::TooLarge(size)),
    };
    if send_file(source, &plan, out).is_err() {
        return Err(CutIntoError::WriteFault(out.written()));
    }
    Ok(bytes)
}

/// Returns whether a file is that of a source in a profile, in which that has this number of bytes. A file of
/// another length is not compared.
pub fn is_whole_file<S: Source>(source: &S, profile: Profile, size: Size, bytes: &[u8]) -> bool
    requires size { IsSize (writing_of profile) (S.content_of source.now) size }
    requires small { length bytes.now ≤ MAX_FILE }
    ensures { IsTrue result ↔ bytes.now ≡ file (writing_of profile) (S.content_of source.now) }
{
    if size.bytes != bytes.len() as u64 {
        return false;
    }
    let plan = plan_of(source, profile, size);
    is_file_of(source, &plan, bytes)
}
