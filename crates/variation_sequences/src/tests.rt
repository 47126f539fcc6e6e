//! A subtable as fontTools writes it, what is not read of it, and one that is made.
use crate::{Pair, Sequences, Variant, make_subtable, variant_glyph};
use std::test::Fail;

// A `cmap` with one encoding record, as fontTools 4.38 compiles it of these sequences: U+FE00 after U+0030 to U+0039
// and U+2268 by default, after U+2229 with glyph 7 and after U+222A with glyph 8; U+E0100 after U+8FBB with glyph 9.
const CMAP: [u8; 79] = [
    0x00, 0x00, 0x00, 0x01, // version, numTables
    0x00, 0x00, 0x00, 0x05, 0x00, 0x00, 0x00, 0x0C, // platformID, encodingID, subtableOffset
    0x00, 0x0E, 0x00, 0x00, 0x00, 0x43, 0x00, 0x00, 0x00, 0x02, // format, length, numVarSelectorRecords
    0x00, 0xFE, 0x00, 0x00, 0x00, 0x00, 0x20, 0x00, 0x00, 0x00, 0x2C, // the record of U+FE00
    0x0E, 0x01, 0x00, 0x00, 0x00, 0x00, 0x00, 0x00, 0x00, 0x00, 0x3A, // the record of U+E0100
    0x00, 0x00, 0x00, 0x02, // numUnicodeValueRanges
    0x00, 0x00, 0x30, 0x09, 0x00, 0x22, 0x68, 0x00, // the ranges
    0x00, 0x00, 0x00, 0x02, // numUVSMappings
    0x00, 0x22, 0x29, 0x00, 0x07, 0x00, 0x22, 0x2A, 0x00, 0x08, // the mappings
    0x00, 0x00, 0x00, 0x01, // numUVSMappings
    0x00, 0x8F, 0xBB, 0x00, 0x09, // the mapping
];

// Returns what is said of a selector and a code.
fn found(selector: u32, code: u32) -> Option<Variant> {
    Sequences::open(&CMAP)?.find(selector, code)
}

#[test]
fn finds_variants(rt: HostRuntime) {
    assert_eq!(rt; found(0xFE00, 0x2F), None);
    assert_eq!(rt; found(0xFE00, 0x30), Some(Variant::Unchanged));
    assert_eq!(rt; found(0xFE00, 0x39), Some(Variant::Unchanged));
    assert_eq!(rt; found(0xFE00, 0x3A), None);
    assert_eq!(rt; found(0xFE00, 0x222A), Some(Variant::Glyph(8)));
    assert_eq!(rt; found(0xFE01, 0x2268), None);
    assert_eq!(rt; found(0xE0100, 0x8FBB), Some(Variant::Glyph(9)));
    assert_eq!(rt; found(0xE0100, 0x2229), None);
}

// Returns the code and the variant of an entry.
fn entry_at(n: usize) -> Option<(u32, Variant)> {
    let entry = Sequences::open(&CMAP)?.entries().nth(n)?;
    Some((entry.code, entry.variant))
}

#[test]
fn lists_entries(rt: HostRuntime) {
    assert_eq!(rt; entry_at(9), Some((0x39, Variant::Unchanged)));
    assert_eq!(rt; entry_at(10), Some((0x2229, Variant::Glyph(7))));
    assert_eq!(rt; entry_at(12), Some((0x2268, Variant::Unchanged)));
    assert_eq!(rt; entry_at(13), Some((0x8FBB, Variant::Glyph(9))));
    assert_eq!(rt; entry_at(14), None);
}

// Returns whether the subtable is read with another byte at a place.
fn is_read_with(place: usize, byte: u8) -> bool {
    let mut cmap = CMAP;
    if place < 79 {
        cmap[place] = byte;
    }
    Sequences::open(&cmap).is_some()
}

#[test]
fn broken_subtables_are_not_read(rt: HostRuntime) {
    assert!(rt; is_read_with(64, 5), "another glyph");
    assert!(rt; !is_read_with(3, 0), "no encoding record");
    assert!(rt; !is_read_with(5, 3), "another platform");
    assert!(rt; !is_read_with(7, 4), "another encoding");
    assert!(rt; !is_read_with(13, 12), "another format");
    assert!(rt; !is_read_with(17, 0x44), "longer than the bytes");
    assert!(rt; !is_read_with(17, 0x42), "shorter than what is listed");
    assert!(rt; !is_read_with(22, 0x0F), "selectors out of order");
    assert!(rt; !is_read_with(33, 0x11), "a selector above U+10FFFF");
    assert!(rt; !is_read_with(28, 0x43), "a list past the end");
    assert!(rt; !is_read_with(47, 0x20), "more ranges than there are");
    assert!(rt; !is_read_with(49, 0x23), "ranges out of order");
    assert!(rt; !is_read_with(62, 0x2A), "a mapping twice");
    assert!(rt; !is_read_with(54, 0x2A), "a code in a range and a mapping");
}

#[test]
fn one_record_is_read(rt: HostRuntime) {
    let once: [u8; 22] = [
        0, 0, 0, 1, 0, 0, 0, 5, 0, 0, 0, 12, 0, 14, 0, 0, 0, 10, 0, 0, 0, 0,
    ];
    let twice: [u8; 30] = [
        0, 0, 0, 2, 0, 0, 0, 5, 0, 0, 0, 20, 0, 0, 0, 5, 0, 0, 0, 20, 0, 14, 0, 0, 0, 10, 0, 0, 0,
        0,
    ];
    assert!(rt; Sequences::open(&once).is_some());
    assert!(rt; Sequences::open(&twice).is_none());
}

#[test]
fn variants_have_glyphs(rt: HostRuntime) {
    assert_eq!(rt; variant_glyph(None, 3, 9), 0);
    assert_eq!(rt; variant_glyph(Some(Variant::Unchanged), 3, 9), 3);
    assert_eq!(rt; variant_glyph(Some(Variant::Glyph(8)), 3, 9), 8);
    assert_eq!(rt; variant_glyph(Some(Variant::Glyph(9)), 3, 9), 0);
}

// The sequences with glyphs of their own, as fontTools 4.38 compiles them.
const MADE: [u8; 55] = [
    0x00, 0x0E, 0x00, 0x00, 0x00, 0x37, 0x00, 0x00, 0x00, 0x02, // format, length, numVarSelectorRecords
    0x00, 0xFE, 0x00, 0x00, 0x00, 0x00, 0x00, 0x00, 0x00, 0x00, 0x20, // the record of U+FE00
    0x0E, 0x01, 0x00, 0x00, 0x00, 0x00, 0x00, 0x00, 0x00, 0x00, 0x2E, // the record of U+E0100
    0x00, 0x00, 0x00, 0x02, // numUVSMappings
    0x00, 0x22, 0x29, 0x00, 0x07, 0x00, 0x22, 0x2A, 0x00, 0x08, // the mappings
    0x00, 0x00, 0x00, 0x01, // numUVSMappings
    0x00, 0x8F, 0xBB, 0x00, 0x09, // the mapping
];

#[test]
fn makes_what_font_tools_makes(rt: HostRuntime) -> Result<(), Fail> {
    let pairs = [
        Pair {
            selector: 0xFE00,
            code: 0x2229,
            glyph: 7,
        },
        Pair {
            selector: 0xFE00,
            code: 0x222A,
            glyph: 8,
        },
        Pair {
            selector: 0xE0100,
            code: 0x8FBB,
            glyph: 9,
        },
    ];
    let made = make_subtable(rt.alloc(), &pairs)?;
    assert_eq!(rt; made.as_slice(), MADE.as_slice());
    Ok(())
}
