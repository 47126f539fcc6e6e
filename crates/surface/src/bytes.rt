//! The items of `sfnt_bytes`.
use sfnt_bytes::{
    BASE6, DirError, Directory, Dropped, Entry, Finding, Findings, KEPT, MAX_FILE, Records, SLOTS,
    Tag, be16, be32, search_fields, word_sum,
};

/// Reads numbers and sums of bytes.
pub fn numbers(b: &[u8]) -> u64 {
    let first: u16 = if 2 <= b.len() { be16(b, 0) } else { 0 };
    let second: u32 = if 4 <= b.len() { be32(b, 0) } else { 0 };
    let sum: u32 = word_sum(b);
    let fields: Option<(u16, u16, u16)> = search_fields(first);
    let kept: [Tag; SLOTS] = KEPT;
    let name: [u8; 4] = kept[0].0;
    let small: [u8; 428] = BASE6;
    let limit: u64 = MAX_FILE;
    limit
        .min(u64::from(second))
        .min(u64::from(sum))
        .min(u64::from(name[0]))
        .min(u64::from(small[0]))
        .min(u64::from(fields.is_some()))
}

/// Reads the directory of a file.
///
/// # Errors
/// The refusal of the directory.
pub fn directory(file: &[u8]) -> Result<bool, DirError> {
    let directory: Directory<'_> = Directory::read(file)?;
    let table: Option<&[u8]> = directory.table(0);
    let mut records: Records<'_> = directory.records();
    let record: Option<Entry> = records.next();
    let mut dropped: Dropped<'_> = directory.dropped();
    let first: Option<Entry> = dropped.next();
    let mut findings: Findings<'_> = directory.findings();
    let finding: Option<Finding> = findings.next();
    let whole: &[u8] = directory.file();
    Ok(
        table.is_some()
            && record.is_some()
            && first.is_some()
            && finding.is_some()
            && !whole.is_empty(),
    )
}
