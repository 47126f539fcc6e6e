//! The bytes of tables that are not read to cut a font. OpenType 1.9, Data Types; Organization of an OpenType Font.
ghost use Rattle.std.specs.Prelude.{◌<◌};

use font_file::Font;
use sfnt_bytes::Tag;

/// Returns the number of two bytes at a place, or 0 if they are not there.
pub fn number_at(bytes: &[u8], at: usize) -> usize
    ensures { result < 65536 }
{
    match bytes.get(at..at.saturating_add(2)) {
        Some(pair) => usize::from(u16::from_be_bytes([pair[0], pair[1]])),
        None => 0,
    }
}

/// Returns the number of four bytes at a place, or 0 if they are not there.
pub fn long_at(bytes: &[u8], at: usize) -> usize {
    match bytes.get(at..at.saturating_add(4)) {
        Some(four) => u32::from_be_bytes([four[0], four[1], four[2], four[3]]) as usize,
        None => 0,
    }
}

/// Returns the bytes of a font's first table of a name, or no bytes if it has no such table.
pub fn table_named<'a>(font: &Font<'a>, name: Tag) -> &'a [u8] {
    let directory = font.tables().directory();
    let Some(entry) = directory.records().find(|entry| entry.tag == name) else {
        return &[];
    };
    let rest = directory.file().get(entry.offset as usize..).unwrap_or(&[]);
    rest.get(..entry.length as usize).unwrap_or(rest)
}
