//! What components reach, and memory that is refused on the way.
ghost use Rattle.std.specs.Prelude.{◌≡◌, ◌<◌, length, IfOk};

use crate::records::Records;
use fakes::Refusing;
use font_glyph::{Marks, Outlines, close};
use sample_fonts::fonts::base6_records;
use sfnt_bytes::NoMemory;
use std::alloc::{AllocError, Allocator, Global};
use std::test::Fail;

// Returns the marked glyphs, in order.
fn marked<A: Allocator>(alloc: Global, marks: &Marks<A>, count: u16) -> Result<Vec<u16>, AllocError>
    requires { length marks.now ≡ count }
{
    let mut glyphs = Vec::new(alloc);
    for g in 0..count {
        if marks.has(g) {
            glyphs.push(g)?;
        }
    }
    Ok(glyphs)
}

// Returns the outlines of these records, among which is this glyph.
fn outlines_with(records: Vec<Vec<u8>>, g: u16) -> Result<Records, Fail>
    ensures { IfOk result (λ outlines. g < length outlines) }
{
    let outlines = Records::new(records).ok_or("a record is bad")?;
    if g >= outlines.count() {
        return Err(Fail::from("no such glyph"));
    }
    Ok(outlines)
}

// Returns the seed alone, and what it reaches, with this memory.
fn closed<A: Allocator + Copy>(
    alloc: A,
    outlines: &Records,
    seed: u16,
) -> Result<Marks<A>, NoMemory>
    requires { seed < length outlines.now }
    ensures { IfOk result (λ marks. length marks ≡ length outlines.now) }
{
    let mut seeds = Marks::new(alloc, outlines.count())?;
    seeds.set(seed);
    close(alloc, outlines, &seeds)
}

#[test]
fn refused_memory(rt: HostRuntime) -> Result<(), Fail> {
    let outlines = outlines_with(base6_records(rt.alloc())?, 3)?;
    for k in 1..100u64 {
        let memory = Refusing::new(rt.alloc(), k);
        let answer = closed(&memory, &outlines, 3);
        if !memory.has_refused() {
            // one for the seeds, and two for what they reach
            assert_eq!(rt; memory.requests(), 3);
            let marks = answer?;
            let glyphs = marked(rt.alloc(), &marks, outlines.count())?;
            assert_eq!(rt; glyphs.as_slice(), [1, 2, 3].as_slice());
            return Ok(());
        }
        assert_eq!(rt; answer.err(), Some(NoMemory), "request {k}");
    }
    panic!(rt; "each of 99 requests was refused")
}

// After a refusal the same seeds close once there is memory.
#[test]
fn seeds_after_a_refusal(rt: HostRuntime) -> Result<(), Fail> {
    let outlines = outlines_with(base6_records(rt.alloc())?, 3)?;
    let count = outlines.count();
    for k in [2, 3] {
        let memory = Refusing::new(rt.alloc(), k);
        let mut seeds = Marks::new(&memory, count)?;
        seeds.set(3);
        let answer = close(&memory, &outlines, &seeds);
        assert_eq!(rt; answer.err(), Some(NoMemory), "request {k}");
        assert_eq!(rt;
            marked(rt.alloc(), &seeds, count)?.as_slice(),
            [3].as_slice()
        );
        let marks = close(&memory, &outlines, &seeds)?;
        assert_eq!(rt;
            marked(rt.alloc(), &marks, count)?.as_slice(),
            [1, 2, 3].as_slice()
        );
    }
    Ok(())
}
