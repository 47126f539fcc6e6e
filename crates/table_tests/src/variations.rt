//! A `gvar` that is made anew, byte by byte, and memory that is refused for it.
use fakes::Refusing;
use font_variations::{Variations, make_gvar};
use sfnt_bytes::NoMemory;
use std::test::Fail;

// Version 1.0, axisCount 1, sharedTupleCount 1.
const FRONT: [u8; 8] = [0, 1, 0, 0, 0, 1, 0, 1];

// The one shared tuple.
const SHARED: [u8; 2] = [64, 0];

// The data of the two glyphs.
const FIRST: [u8; 2] = [11, 12];

const SECOND: [u8; 4] = [21, 22, 23, 24];

// The table.
const LONG_TABLE: [u8; 40] = [
    0, 1, 0, 0, 0, 1, 0, 1, // version, axisCount, sharedTupleCount
    0, 0, 0, 32, // sharedTuplesOffset
    0, 2, 0, 1, // glyphCount, flags
    0, 0, 0, 34, // glyphVariationDataArrayOffset
    0, 0, 0, 0, 0, 0, 0, 2, 0, 0, 0, 6, // the offsets
    64, 0, // the tuple
    11, 12, 21, 22, 23, 24, // the data
];

// `fvar` up to axisCount: one axis.
const FVAR: [u8; 10] = [0, 1, 0, 0, 0, 16, 0, 2, 0, 1];

#[test]
fn memory_for_a_gvar(rt: HostRuntime) -> Result<(), Fail> {
    let glyph_data: [&[u8]; 2] = [&FIRST, &SECOND];
    for k in 1..100u64 {
        let memory = Refusing::new(rt.alloc(), k);
        let answer = make_gvar(&memory, &FRONT, &SHARED, &glyph_data);
        if !memory.has_refused() {
            let table = answer?;
            assert_eq!(rt; memory.requests(), 1);
            assert_eq!(rt; table.as_slice(), LONG_TABLE.as_slice());
            let Some(read) = Variations::open(&table, Some(&FVAR), 2) else {
                panic!(rt; "a table that was made is refused")
            };
            assert_eq!(rt; read.data(1), SECOND.as_slice());
            return Ok(());
        }
        assert_eq!(rt; answer.err(), Some(NoMemory), "request {k}");
    }
    panic!(rt; "each of 99 requests was refused")
}
