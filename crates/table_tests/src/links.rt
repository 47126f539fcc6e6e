//! What links lead to, and memory that is refused on the way.
ghost use Rattle.std.specs.Prelude.{◌≡◌, length, IfOk};

use fakes::Refusing;
use font_glyph::{Links, Marks, follow};
use sfnt_bytes::NoMemory;
use std::alloc::{AllocError, Allocator, Global};
use std::test::Fail;

// Links of two numbers, and none of any other.
#[derive(Drop)]
struct Steps<'a> {
    here: u16,
    first: &'a [u16],
    there: u16,
    second: &'a [u16],
}

impl<'a> Links for Steps<'a> {
    ghost use Rattle.std.specs.Prelude.{nat_eq, [], if◌then◌else◌};

    ghost links_at = { λ s g. if nat_eq g s.here then s.first.now
        else if nat_eq g s.there then s.second.now else [] };

    fn of(&self, g: u16) -> &[u16] {
        if g == self.here {
            return self.first;
        }
        if g == self.there {
            return self.second;
        }
        &[]
    }
}

// Returns the marked glyphs, in order.
fn marked<A: Allocator>(alloc: Global, marks: &Marks<A>, count: u16) -> Result<Vec<u16>, AllocError>
    requires { length marks.now ≡ count }
{
    let mut glyphs = Vec::new(alloc);
    for g in 0..count {
        if marks.has(g) {
            glyphs.push(g)?;
        }
    }
    Ok(glyphs)
}

// Marks what .notdef leads to among nine glyphs, with this memory.
fn followed<A: Allocator + Copy>(alloc: A, links: &Steps<'_>) -> Result<Marks<A>, NoMemory>
    ensures { IfOk result (λ marks. length marks ≡ 9) }
{
    let mut seeds = Marks::new(alloc, 9)?;
    seeds.set(0);
    follow(alloc, links, &seeds, 9)
}

// Links lead over a number that is no glyph, and in circles.
#[test]
fn over_numbers_without_glyphs(rt: HostRuntime) -> Result<(), Fail> {
    let links = Steps {
        here: 0,
        first: &[500, 0, 7],
        there: 500,
        second: &[3, 65535, 0],
    };
    let marks = followed(rt.alloc(), &links)?;
    assert_eq!(rt;
        marked(rt.alloc(), &marks, 9)?.as_slice(),
        [0, 3, 7].as_slice()
    );
    Ok(())
}

#[test]
fn refused_memory(rt: HostRuntime) -> Result<(), Fail> {
    let links = Steps {
        here: 0,
        first: &[8],
        there: 8,
        second: &[],
    };
    for k in 1..100u64 {
        let memory = Refusing::new(rt.alloc(), k);
        let answer = followed(&memory, &links);
        if !memory.has_refused() {
            let marks = answer?;
            assert_eq!(rt;
                marked(rt.alloc(), &marks, 9)?.as_slice(),
                [0, 8].as_slice()
            );
            return Ok(());
        }
        assert_eq!(rt; answer.err(), Some(NoMemory), "request {k}");
    }
    panic!(rt; "each of 99 requests was refused")
}
