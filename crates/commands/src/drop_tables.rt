//! A font without some of its tables. OpenType 1.9, Organization of an OpenType Font, Table Directory.
ghost use Rattle.std.specs.Prelude.{◌≡◌, ◌+◌, ◌*◌, ◌++◌, ◌≤◌, length, IfOk, OnErr, OnOk};
ghost use Rattle.sfnt_bytes.specs.Directory.{HasRecords, tag_at};
ghost use Rattle.sfnt_bytes.specs.Memory.{IsRefused};
ghost use Rattle.commands.specs.Drop.{is_tag_among, record_without, without_tables};

use sfnt_bytes::{Directory, Memory, NoMemory, Tag, be16};
use std::alloc::AllocError;

// The bytes before the records of tables, and those of a record and of its tag.
const HEADER: usize = 12;

const RECORD: usize = 16;

const TAG: usize = 4;

// What stands for a tag that goes. No table has such a tag.
const BLANKS: &[u8] = b"    ";

// Returns whether the record at a place has one of some tags.
#[tactic(auto, unfolding(sfnt_bytes::specs::Directory::tag_at))]
fn is_gone(file: &[u8], at: usize, tags: &[Tag]) -> bool
    requires { at + 4 ≤ length file.now }
    ensures { result ≡ is_tag_among tags.now (tag_at file.now at) }
{
    let tag = Tag([file[at], file[at + 1], file[at + 2], file[at + 3]]);
    tags.iter().any(|gone| *gone == tag)
}

// Puts record `k` of a file after what is made, without its tag where that is one of some tags.
#[tactic(auto, unfolding(crate::specs::Drop::record_without))]
fn push_record<A: Memory>(
    made: &mut Vec<u8, A>,
    file: &[u8],
    k: usize,
    tags: &[Tag],
) -> Result<(), NoMemory>
    requires { 12 + 16 * (k + 1) ≤ length file.now }
    ensures record { OnOk result (made.new.items ≡ made.old.items ++ record_without tags.now file.now k) }
    ensures memory { OnErr result (IsRefused A.refuses) }
{
    let at = HEADER + RECORD * k;
    if is_gone(file, at, tags) {
        A::append(made, BLANKS)?;
    } else {
        A::append(made, &file[at..at + TAG])?;
    }
    A::append(made, &file[at + TAG..at + RECORD])
}

// Returns a file with all its records, in which blanks stand for some tags.
#[tactic(auto, using(crate::proofs::DropLemmas::along_start, crate::proofs::DropLemmas::along_step, crate::proofs::DropLemmas::along_end), unfolding(crate::specs::Drop::without_tables))]
fn with_blanks<A: Memory>(alloc: A, file: &[u8], tags: &[Tag]) -> Result<Vec<u8, A>, NoMemory>
    requires { HasRecords file.now }
    ensures file { IfOk result (λ made. made.items ≡ without_tables tags.now file.now) }
    ensures memory { OnErr result (IsRefused A.refuses) }
{
    let count = usize::from(be16(file, 4));
    let mut made = alloc.room_for(file.len())?;
    A::append(&mut made, &file[..HEADER])?;
    for k in 0..count {
        push_record(&mut made, file, k, tags)?;
    }
    A::append(&mut made, &file[HEADER + RECORD * count..])?;
    Ok(made)
}

/// Returns the file of a font without some tables: four blanks stand for their tags in its directory, and nothing
/// else is changed. Where no table lies over the directory, a cut of it is that of a font which has none of them.
///
/// # Errors
/// `AllocError` if out of memory.
#[tactic(auto, using(sfnt_bytes::proofs::RefusalLemmas::is_readable))]
pub fn without_tables<A: Memory>(
    alloc: A,
    directory: &Directory<'_>,
    tags: &[Tag],
) -> Result<Vec<u8, A>, AllocError>
    ensures file { IfOk result (λ file. file.items ≡ without_tables tags.now directory.now) }
    ensures memory { OnErr result (IsRefused A.refuses) }
{
    match with_blanks(alloc, directory.file(), tags) {
        Ok(file) => Ok(file),
        Err(NoMemory) => Err(AllocError),
    }
}
