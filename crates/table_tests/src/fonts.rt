//! What is read of a font where no program prints it: its numbers, and the metrics, outlines and components
//! of its glyphs.
use font_file::Font;
use font_glyph::{Component, GlyphFault};
use font_tables::{LocaForm, Tables};
use sample_fonts::fonts::{base6_with, with_bytes};
use sfnt_bytes::{BASE6, Directory};
use std::test::Fail;

// Where the tables `hhea` and `hmtx` of Base6 begin.
const HHEA: usize = 320;

const HMTX: usize = 356;

// The advance width and the bearing of a glyph, and where its outline begins and ends in Base6.
type Glyph = (u16, i16, usize, usize);

const GLYPHS: [Glyph; 6] = [
    (600, 0, 192, 204),
    (500, 0, 204, 218),
    (400, 0, 218, 228),
    (500, 0, 228, 250),
    (250, 0, 250, 250),
    (300, 0, 250, 262),
];

// Returns whether a file has this form of `loca`, this number of metrics, and these glyphs.
fn has_glyphs(file: &[u8], form: LocaForm, metrics: u16, glyphs: &[Glyph]) -> Result<bool, Fail> {
    let tables = Tables::open(Directory::read(file)?)?;
    let is_stated = tables.loca_format() == form && tables.metric_count() == metrics;
    if !is_stated || usize::from(tables.glyph_count()) != glyphs.len() {
        return Ok(false);
    }
    for g in 0..tables.glyph_count() {
        let (advance, bearing, from, to) = *glyphs.get(g as usize).ok_or("no such glyph")?;
        let outline = BASE6.get(from..to).ok_or("no such outline")?;
        if tables.metric(g) != (advance, bearing) || tables.outline(g) != outline {
            return Ok(false);
        }
    }
    Ok(true)
}

#[test]
fn lookups_of_base6(rt: HostRuntime) -> Result<(), Fail> {
    assert!(rt; has_glyphs(&BASE6, LocaForm::Short, 6, &GLYPHS)?);
    let font = Font::open(&BASE6)?;
    assert_eq!(rt; font.tables().directory().file(), BASE6.as_slice());
    assert_eq!(rt; font.tables().units_per_em(), 1000);
    assert_eq!(rt; font.mapping().chosen(), (3, 1, 4));
    for (code, glyph) in [
        (0x20, 4),
        (0x41, 1),
        (0x42, 5),
        (0xC1, 3),
        (0x43, 0),
        (0x110000, 0),
    ] {
        assert_eq!(rt; font.glyph(code), glyph, "U+{code:04X}");
    }
    let count = font.tables().glyph_count();
    assert!(rt; count == 6);
    assert_eq!(rt; font.metric(3), (500, 0));
    assert_eq!(rt; font.outline(3), &BASE6[228..250]);
    let components: Vec<Component> = font.components(3).collect(rt.alloc())?;
    let stated = [(0x22, 1), (0x02, 2)].map(|(flags, glyph)| Component { flags, glyph });
    assert_eq!(rt; components.as_slice(), stated.as_slice());
    assert!(rt; font.components(4).next().is_none() && font.components(5).next().is_none());
    Ok(())
}

// Two pairs and four bearings.
const METRICS: [u8; 16] = [
    0x02, 0x58, 0xFF, 0xFF, // 600, -1
    0x01, 0xF4, 0x80, 0x00, // 500, -32768
    0x7F, 0xFF, // 32767
    0xFF, 0xFE, // -2
    0x00, 0x00, // 0
    0x00, 0x05, // 5
];

#[test]
fn glyphs_past_the_pairs(rt: HostRuntime) -> Result<(), Fail> {
    let two = base6_with(HHEA + 34, &[0, 2]);
    let file = with_bytes(two, HMTX, &METRICS);
    let glyphs = [
        (600, -1, 192, 204),
        (500, -32768, 204, 218),
        (500, 32767, 218, 228),
        (500, -2, 228, 250),
        (500, 0, 250, 250),
        (500, 5, 250, 262),
    ];
    assert!(rt; has_glyphs(&file, LocaForm::Short, 2, &glyphs)?);
    Ok(())
}

#[test]
fn texts_of_refusals(rt: HostRuntime) -> Result<(), Fail> {
    assert_eq!(rt; GlyphFault.number(), 17);
    assert_eq!(rt; GlyphFault.to_string(rt.alloc())?.as_str(), "bad glyph");
    Ok(())
}
