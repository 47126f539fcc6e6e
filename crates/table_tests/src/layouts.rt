//! A `GSUB` at the limit of its steps, and memory that is refused for its links.
use fakes::Refusing;
use font_layout::{Layout, Links};
use sfnt_bytes::NoMemory;
use std::test::Fail;

// A `GSUB` of 1,048,576 steps: a lookup whose seven subtables are one, which has each of 65,536 glyphs stand for
// itself, and one with a subtable that does so for 65,523 glyphs. A subtable has two steps for each glyph, one for
// its range, one for its own offset and one for that of its Coverage, and a lookup one more.
const AT_THE_LIMIT: [u8; 76] = [
    0, 1, 0, 0, 0, 0, 0, 0, 0, 10, // the header
    0, 2, 0, 6, 0, 26, // two lookups
    0, 1, 0, 0, 0, 7, 0, 28, 0, 28, 0, 28, 0, 28, 0, 28, 0, 28, 0, 28, // the first
    0, 1, 0, 0, 0, 1, 0, 24, // the second
    0, 1, 0, 6, 0, 0, 0, 2, 0, 1, 0, 0, 0xFF, 0xFF, 0, 0, // the subtable of the first
    0, 1, 0, 6, 0, 0, 0, 2, 0, 1, 0, 0, 0xFF, 0xF2, 0, 0, // the subtable of the second
];

// Where the last byte of the last glyph of the second lookup stands.
const LAST_GLYPH: usize = 73;

// A `GSUB` of one lookup, which puts glyphs 30 and 31 for glyph 4.
const SEQUENCE: [u8; 44] = [
    0, 1, 0, 0, 0, 0, 0, 0, 0, 10, // the header
    0, 1, 0, 4, // one lookup
    0, 2, 0, 0, 0, 1, 0, 8, // of one subtable
    0, 1, 0, 8, 0, 1, 0, 14, // of one sequence
    0, 1, 0, 1, 0, 4, // the Coverage
    0, 2, 0, 30, 0, 31, 0, 0, // the sequence
];

#[test]
fn limit_of_steps(rt: HostRuntime) -> Result<(), Fail> {
    let mut table = AT_THE_LIMIT;
    assert_eq!(rt; Layout::open(&table).is_some(), true);
    table[LAST_GLYPH] += 1;
    assert_eq!(rt; Layout::open(&table).is_some(), false);
    Ok(())
}

#[test]
fn memory_for_links(rt: HostRuntime) -> Result<(), Fail> {
    let Some(layout) = Layout::open(&SEQUENCE) else {
        panic!(rt; "a sequence is refused")
    };
    for k in 1..100u64 {
        let memory = Refusing::new(rt.alloc(), k);
        let answer = Links::of(&memory, &layout);
        if !memory.has_refused() {
            let links = answer?;
            assert_eq!(rt; links.leads(4), [30, 31].as_slice());
            assert_eq!(rt; links.leads(30).is_empty(), true);
            assert_eq!(rt; links.leads(31).is_empty(), true);
            return Ok(());
        }
        assert_eq!(rt; answer.err(), Some(NoMemory), "request {k}");
    }
    panic!(rt; "each of 99 requests was refused")
}
