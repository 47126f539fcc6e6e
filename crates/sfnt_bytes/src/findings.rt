//! What is not as the standard asks. OpenType 1.9, Organization of an OpenType Font, Table
//! Directory and Calculating Checksums.
ghost use Rattle.std.specs.Prelude.{◌≡◌, ◌+◌, ◌<◌, ◌≤◌, ◌^◌, IfSome, IsTrue, false, length};
ghost use Rattle.std.specs.Iterator.{YieldsFirst, item_count};
ghost use Rattle.sfnt_bytes.specs.Directory.{HasRecords, is_within, records_of};
ghost use Rattle.sfnt_bytes.specs.Findings.{entry_findings, findings_of, has_file_sum, has_search_fields, is_ascending, is_padded, is_wrong_at, table_sum, has_wrong_file_sum};
ghost use Rattle.sfnt_bytes.specs.Lines.{said_lines, when};
ghost use Rattle.sfnt_bytes.specs.Refusals.{is_outside};
ghost use Rattle.sfnt_bytes.specs.declared.findings.Finding.TheVariants.{FileSum};
ghost use Rattle.sfnt_bytes.specs.declared.tag.TheConstants.{HEAD_TAG};

use crate::directory::search_fields;
use crate::number::{be16, be32};
use crate::prefixes::TableSums;
use crate::records::{Entry, Records, find_entry, records_in};
use crate::sums::{adjustment, sum_without};
use crate::tag::{HEAD_TAG, Tag};
use std::marker::Model;

/// What is not as the standard asks in a file that is read all the same.
#[derive(Clone, Copy, Debug, PartialEq, Eq)]
pub enum Finding {
    /// The tags of the records are not strictly ascending.
    Unsorted,
    /// `searchRange`, `entrySelector` or `rangeShift` is not that of the number of tables.
    SearchFields,
    /// The table of this tag, which no full cut keeps, does not lie within the file.
    OutOfFile(Tag),
    /// The table does not begin at a multiple of four bytes.
    Unaligned(Tag),
    /// The bytes that fill the table to a multiple of four are not all there and zero.
    Padding(Tag),
    /// The record's checksum is not the table's.
    Checksum(Tag),
    /// `checksumAdjustment` of `head` is not that of the file.
    FileSum,
}

fn found(condition: bool, finding: Finding) -> Option<Finding>
    ensures { result ≡ when condition finding }
{
    condition.then_some(finding)
}

// Returns whether the tags are strictly ascending.
#[tactic(auto, unfolding(crate::specs::Findings::is_ascending))]
fn has_sorted_records(file: &[u8]) -> bool
    requires { HasRecords file.now }
    ensures { result ≡ is_ascending (records_of file.now) }
{
    let mut records = records_in(file);
    let Some(mut last) = records.next() else {
        return true;
    };
    for entry in records {
        if entry.tag.number() <= last.tag.number() {
            return false;
        }
        last = entry;
    }
    true
}

#[tactic(auto, unfolding(crate::specs::Findings::has_search_fields))]
fn has_fields(file: &[u8]) -> bool
    requires { 12 ≤ length file.now }
    ensures { result ≡ has_search_fields file.now }
{
    match search_fields(be16(file, 4)) {
        Some((range, selector, shift)) => {
            be16(file, 6) == range && be16(file, 8) == selector && be16(file, 10) == shift
        }
        None => false,
    }
}

// Returns the checksum of a record's table. Of `head`, `checksumAdjustment` counts as 0 where all of it
// is there.
#[tactic(auto, unfolding(crate::specs::Findings::table_sum))]
fn sum_of_table(sums: &mut TableSums<'_>, entry: Entry) -> u32
    requires { IsTrue (is_within sums.old entry) }
    ensures sum { result ≡ table_sum sums.old entry }
    ensures file { sums.new ≡ sums.old }
{
    let start = entry.offset as usize;
    let end = start + entry.length as usize;
    let sum = sums.sum(start, end);
    if entry.tag == HEAD_TAG && entry.length >= 12 {
        sum_without(sum, &sums.file()[start..end], 8)
    } else {
        sum
    }
}

#[tactic(auto, unfolding(crate::specs::Findings::is_padded))]
fn has_padding(file: &[u8], entry: Entry) -> bool
    requires { IsTrue (is_within file.now entry) }
    ensures { result ≡ is_padded file.now entry }
{
    let end = entry.offset as usize + entry.length as usize;
    let zeros = [0u8; 4];
    file[end..].starts_with(&zeros[..(4 - entry.length as usize % 4) % 4])
}

// The findings of one record that were not given yet, in order.
#[derive(Drop)]
struct Pending {
    first: Option<Finding>,
    second: Option<Finding>,
    third: Option<Finding>,
}

impl Model for Pending {
    ghost use Rattle.std.specs.Prelude.{List, [], ◌∷◌};
    ghost use Rattle.sfnt_bytes.specs.Lines.{said_lines};
    ghost use Rattle.sfnt_bytes.specs.declared.findings.Finding.{Finding};

    ghost Value = { List Finding };

    ghost view = { λ f. said_lines (f.first ∷ f.second ∷ f.third ∷ []) };
}

impl Pending {
    fn next(&mut self) -> Option<Finding>
        ensures { YieldsFirst (λ s. s) self.old result self.new }
    {
        if self.first.is_some() {
            return self.first.take();
        }
        if self.second.is_some() {
            return self.second.take();
        }
        self.third.take()
    }
}

#[tactic(auto, unfolding(crate::specs::Findings::entry_findings))]
fn findings_of_entry(sums: &mut TableSums<'_>, entry: Entry) -> Pending
    ensures findings { result ≡ entry_findings sums.old entry }
    ensures file { sums.new ≡ sums.old }
{
    let file = sums.file();
    let tag = entry.tag;
    if !entry.is_within(file) {
        return Pending {
            first: Some(Finding::OutOfFile(tag)),
            second: None,
            third: None,
        };
    }
    let sum = sum_of_table(sums, entry);
    Pending {
        first: found(entry.offset % 4 != 0, Finding::Unaligned(tag)),
        second: found(!has_padding(file, entry), Finding::Padding(tag)),
        third: found(sum != entry.checksum, Finding::Checksum(tag)),
    }
}

#[tactic(auto, unfolding(crate::specs::Findings::has_file_sum))]
fn has_right_sum(sums: &TableSums<'_>, at: usize) -> bool
    requires { at + 4 ≤ length sums.now }
    ensures { result ≡ has_file_sum sums.now at }
{
    let file = sums.file();
    be32(file, at) == adjustment(sum_without(sums.file_sum(), file, at))
}

// Returns the finding of the sum of the file, if any, where its `checksumAdjustment` stands at a place.
fn finding_of_sum(sums: &TableSums<'_>, place: Option<usize>) -> Option<Finding>
    requires { IfSome place (λ at. at + 4 ≤ length sums.now) }
    ensures { result ≡ when (is_wrong_at sums.now place) FileSum }
{
    match place {
        Some(at) => found(!has_right_sum(sums, at), Finding::FileSum),
        None => None,
    }
}

// Returns where `checksumAdjustment` stands, where all of it is there.
#[tactic(auto, unfolding(crate::specs::Findings::has_wrong_file_sum))]
fn adjustment_place(file: &[u8]) -> Option<usize>
    requires room { HasRecords file.now }
    requires head { is_outside file.now HEAD_TAG ≡ false }
    ensures within { IfSome result (λ at. at + 4 ≤ length file.now) }
    ensures judged { is_wrong_at file.now result ≡ has_wrong_file_sum file.now }
{
    match find_entry(file, HEAD_TAG) {
        Some(head) if head.length >= 12 => Some(head.offset as usize + 8),
        _ => None,
    }
}

/// The findings of a file, in order.
#[derive(Drop)]
pub struct Findings<'a> {
    sums: TableSums<'a>,
    pending: Pending,
    records: Records<'a>,
    adjustment: Option<usize>,
}

impl<'a> Model for Findings<'a> {
    ghost use Rattle.std.specs.Prelude.{◌+◌, ◌≤◌, IfSome, List, length};
    ghost use Rattle.sfnt_bytes.specs.Findings.{findings_left, is_wrong_at};
    ghost use Rattle.sfnt_bytes.specs.Lines.{when};
    ghost use Rattle.sfnt_bytes.specs.declared.findings.Finding.{Finding};
    ghost use Rattle.sfnt_bytes.specs.declared.findings.Finding.TheVariants.{FileSum};

    ghost Value = { List Finding };

    ghost view = { λ f. findings_left f.sums f.pending f.records
        (when (is_wrong_at f.sums f.adjustment) FileSum) };

    ghost invariant = { λ f. IfSome f.adjustment (λ at. at + 4 ≤ length f.sums) };
}

impl<'a> Iterator for Findings<'a> {
    type Item = Finding;

    ghost next_gives = { YieldsFirst (λ s. s) };

    ghost remaining = { item_count (λ s. s) };

    fn next(&mut self) -> Option<Finding> {
        loop {
            if let Some(finding) = self.pending.next() {
                return Some(finding);
            }
            let Some(entry) = self.records.next() else {
                return finding_of_sum(&self.sums, self.adjustment.take());
            };
            self.pending = findings_of_entry(&mut self.sums, entry);
        }
    }
}

/// Returns the findings of a file that has all the records that it says.
#[tactic(auto, unfolding(crate::specs::Findings::findings_of))]
pub(crate) fn findings_in(file: &[u8]) -> Findings<'_>
    requires room { HasRecords file.now }
    requires head { is_outside file.now HEAD_TAG ≡ false }
    ensures findings { result ≡ findings_of file.now }
    ensures count { length result < 2 ^ 18 }
{
    Findings {
        sums: TableSums::of(file),
        pending: Pending {
            first: found(!has_sorted_records(file), Finding::Unsorted),
            second: found(!has_fields(file), Finding::SearchFields),
            third: None,
        },
        records: records_in(file),
        adjustment: adjustment_place(file),
    }
}
