//! The records of a directory. OpenType 1.9, Organization of an OpenType Font, Table Directory.
ghost use Rattle.std.specs.Prelude.{◌≡◌, ◌+◌, ◌*◌, ◌<◌, ◌≤◌, length, count_by};
ghost use Rattle.std.specs.Iterator.{YieldsFirst, item_count};
ghost use Rattle.sfnt_bytes.specs.Directory.{HasRecords, dropped_of, entry_at, has_tag, is_within, records_of, table_entry, tag_at};

use crate::number::{be16, be32};
use crate::tag::Tag;
use std::marker::Model;

/// How many bytes stand before the records.
pub(crate) const HEADER: usize = 12;

/// How many bytes a record has.
pub(crate) const RECORD: usize = 16;

/// A record of the directory, as it stands: nothing of it is checked.
#[derive(Clone, Copy, Debug, PartialEq, Eq)]
pub struct Entry {
    /// The table's name.
    pub tag: Tag,
    /// The sum of the table's words, as the file says.
    pub checksum: u32,
    /// Where the table begins, in bytes from the start of the file.
    pub offset: u32,
    /// How many bytes the table has, without padding.
    pub length: u32,
}

impl Entry {
    /// Returns whether the table lies within the file.
    pub(crate) fn is_within(self, file: &[u8]) -> bool
        ensures { result ≡ is_within file.now self }
    {
        u64::from(self.offset) + u64::from(self.length) <= file.len() as u64
    }
}

#[inline(always)]
#[tactic(auto, unfolding(crate::specs::Directory::tag_at))]
fn read_tag(file: &[u8], at: usize) -> Tag
    requires { at + 4 ≤ length file.now }
    ensures { result ≡ tag_at file.now at }
{
    Tag([file[at], file[at + 1], file[at + 2], file[at + 3]])
}

#[tactic(auto, unfolding(crate::specs::Directory::entry_at))]
fn read_entry(file: &[u8], k: usize) -> Entry
    requires { 12 + 16 * (k + 1) ≤ length file.now }
    ensures { result ≡ entry_at file.now k }
{
    let at = HEADER + RECORD * k;
    Entry {
        tag: read_tag(file, at),
        checksum: be32(file, at + 4),
        offset: be32(file, at + 8),
        length: be32(file, at + 12),
    }
}

/// The records of a directory, in the order of the file.
#[derive(Drop)]
pub struct Records<'a> {
    file: &'a [u8],
    next: usize,
    left: usize,
}

impl<'a> Model for Records<'a> {
    ghost use Rattle.std.specs.Prelude.{◌+◌, ◌*◌, ◌≤◌, List, length};
    ghost use Rattle.sfnt_bytes.specs.Directory.{entries_from};
    ghost use Rattle.sfnt_bytes.specs.declared.records.Entry.{Entry};

    ghost Value = { List Entry };

    ghost view = { λ r. entries_from r.file.now r.next r.left };

    ghost invariant = { λ r. 12 + 16 * (r.next + r.left) ≤ length r.file.now };
}

impl<'a> Iterator for Records<'a> {
    type Item = Entry;

    ghost next_gives = { YieldsFirst (λ s. s) };

    ghost remaining = { item_count (λ s. s) };

    fn next(&mut self) -> Option<Entry> {
        if self.left == 0 {
            return None;
        }
        let entry = read_entry(self.file, self.next);
        self.next += 1;
        self.left -= 1;
        Some(entry)
    }
}

/// Returns the records of a file that has all that it says.
#[tactic(auto, unfolding(crate::specs::Directory::records_of))]
pub(crate) fn records_in(file: &[u8]) -> Records<'_>
    requires { HasRecords file.now }
    ensures records { result ≡ records_of file.now }
    ensures count { length result < 65536 }
{
    Records {
        file,
        next: 0,
        left: be16(file, 4) as usize,
    }
}

// Returns whether a record carries the tag. It reads no other field: most records are passed over.
#[inline(always)]
#[tactic(auto, unfolding(crate::specs::Directory::entry_at))]
fn carries(file: &[u8], k: usize, tag: Tag) -> bool
    requires { 12 + 16 * (k + 1) ≤ length file.now }
    ensures { result ≡ has_tag tag (entry_at file.now k) }
{
    read_tag(file, HEADER + RECORD * k).is(tag)
}

/// Returns how many records carry the tag.
#[tactic(auto, using(crate::proofs::RecordLemmas::count_step, crate::proofs::RecordLemmas::count_end), unfolding(crate::specs::Directory::records_of))]
pub(crate) fn count_of(file: &[u8], tag: Tag) -> usize
    requires { HasRecords file.now }
    ensures { result ≡ count_by (has_tag tag) (records_of file.now) }
{
    let mut count = 0;
    for k in 0..be16(file, 4) as usize {
        count += usize::from(carries(file, k, tag));
    }
    count
}

/// Returns the first record that carries the tag.
#[tactic(auto, using(crate::proofs::RecordLemmas::find_passed, crate::proofs::RecordLemmas::find_here, crate::proofs::RecordLemmas::find_end), unfolding(crate::specs::Directory::records_of, crate::specs::Directory::table_entry))]
pub(crate) fn find_entry(file: &[u8], tag: Tag) -> Option<Entry>
    requires { HasRecords file.now }
    ensures { result ≡ table_entry file.now tag }
{
    for k in 0..be16(file, 4) as usize {
        if carries(file, k, tag) {
            return Some(read_entry(file, k));
        }
    }
    None
}

/// The records of the tables that full and lean cuts drop, in the order of the file.
#[derive(Drop)]
pub struct Dropped<'a> {
    records: Records<'a>,
}

impl<'a> Model for Dropped<'a> {
    ghost use Rattle.std.specs.Prelude.{List, filter};
    ghost use Rattle.sfnt_bytes.specs.Directory.{is_dropped};
    ghost use Rattle.sfnt_bytes.specs.declared.records.Entry.{Entry};

    ghost Value = { List Entry };

    ghost view = { λ d. filter is_dropped d.records };
}

impl<'a> Iterator for Dropped<'a> {
    type Item = Entry;

    ghost next_gives = { YieldsFirst (λ s. s) };

    ghost remaining = { item_count (λ s. s) };

    #[tactic(auto, unfolding(crate::specs::Directory::is_dropped))]
    fn next(&mut self) -> Option<Entry> {
        loop {
            let entry = self.records.next()?;
            if !entry.tag.is_kept() {
                return Some(entry);
            }
        }
    }
}

/// Returns the dropped records of a file that has all that it says.
#[tactic(auto, unfolding(crate::specs::Directory::dropped_of))]
pub(crate) fn dropped_in(file: &[u8]) -> Dropped<'_>
    requires { HasRecords file.now }
    ensures records { result ≡ dropped_of file.now }
    ensures count { length result < 65536 }
{
    Dropped {
        records: records_in(file),
    }
}
