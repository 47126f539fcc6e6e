//! Cuts that are sent to writers which take little, fail, or have no room.
use crate::samples::wanted_of;
use fakes::devices::{Failure, Narrow};
use font_cut::{CutIntoError, Font, Outlet, cut_into};
use sample_fonts::fonts::wide;
use sample_fonts::known_cuts::AACUTE;
use sfnt_bytes::BASE6;
use std::alloc::Global;
use std::io::ErrorKind;
use std::test::Fail;

const SIZE: u64 = 412;

// What a cut answered, and what its outlet and its writer say then.
#[derive(Clone, Copy, Debug, PartialEq, Eq)]
struct Sent {
    answer: Result<u64, CutIntoError>,
    // Whether the call that was to fail came.
    has_failed: bool,
    is_broken: bool,
    written: u64,
    // How many bytes of the cut for 0xC1 the writer holds, and none where it holds others.
    held: Option<u64>,
}

// Sends the cut of Base6 for 0xC1, at most `piece` bytes a write. It is none if out of memory.
fn send_aacute(alloc: Global, piece: usize, failure: Failure) -> Option<Sent> {
    let font = Font::open(&BASE6).ok()?;
    let wanted = wanted_of(alloc, &[(0xC1, 0xC1)]).ok()?;
    let mut outlet = Outlet::new(Narrow::new(alloc, piece, failure));
    let answer = cut_into(alloc, &font, &wanted, &mut outlet);
    let (written, is_broken) = (outlet.written(), outlet.is_broken());
    let writer = outlet.into_inner();
    let held = writer.held();
    let is_front = AACUTE.starts_with(held);
    Some(Sent {
        answer,
        has_failed: writer.has_failed(),
        is_broken,
        written,
        held: if is_front {
            Some(held.len() as u64)
        } else {
            None
        },
    })
}

// Returns what is stated of a writer that takes this number of bytes of the cut and then fails, or all of them.
fn taken(written: u64) -> Sent {
    let is_broken = written < SIZE;
    Sent {
        answer: if is_broken {
            Err(CutIntoError::WriteFault(written))
        } else {
            Ok(SIZE)
        },
        has_failed: is_broken,
        is_broken,
        written,
        held: Some(written),
    }
}

/// Returns whether the cut of Base6 for 0xC1 is sent to a writer that takes one byte a write.
pub fn is_sent_by_bytes(alloc: Global) -> bool {
    send_aacute(alloc, 1, Failure::Nowhere) == Some(taken(SIZE))
}

#[test]
fn sends_the_cut(rt: HostRuntime) -> Result<(), Fail> {
    let font = Font::open(&BASE6)?;
    let wanted = wanted_of(rt.alloc(), &[(0xC1, 0xC1)])?;
    let mut outlet = Outlet::new(Vec::new(rt.alloc()));
    let answer = cut_into(rt.alloc(), &font, &wanted, &mut outlet);
    assert_eq!(rt; answer, Ok(SIZE));
    assert_eq!(rt; outlet.written(), SIZE);
    assert!(rt; !outlet.is_fresh() && !outlet.is_broken());
    assert_eq!(rt; outlet.finish(), Ok(()));
    assert_eq!(rt; outlet.into_inner().as_slice(), AACUTE.as_slice());
    Ok(())
}

#[test]
fn short_writer(rt: HostRuntime) {
    for room in 0..414usize {
        let sent = send_aacute(rt.alloc(), 4096, Failure::Full(room));
        let stated = taken((room as u64).min(SIZE));
        assert_eq!(rt; sent, Some(stated), "room for {room}");
    }
}

// An outlet breaks where a write failed, and nowhere else; then a front of the cut is out. The first
// write is one, and with one byte a write, the write of a number comes after one byte less.
#[test]
fn failing_writes(rt: HostRuntime) {
    for piece in [1, 3, 7, 100, 4096] {
        for k in 1..414u64 {
            for failure in [
                Failure::AtWrite(k, ErrorKind::Interrupted),
                Failure::TakesNoneAt(k),
            ] {
                let sent = send_aacute(rt.alloc(), piece, failure);
                let written = match sent {
                    Some(sent) => sent.written,
                    None => 0,
                };
                assert_eq!(rt; sent, Some(taken(written)), "{piece}, {failure:?}");
                assert!(rt; k > 1 || written == 0, "{piece}, {failure:?}");
                assert!(rt; piece > 1 || written == k - 1, "{piece}, {failure:?}");
            }
        }
    }
}

#[test]
fn unbroken_after_refusals(rt: HostRuntime) -> Result<(), Fail> {
    let file = wide(rt.alloc())?;
    let font = Font::open(&file)?;
    let wanted = wanted_of(rt.alloc(), &[(0x41, 0x42)])?;
    let mut outlet = Outlet::new(Narrow::new(
        rt.alloc(),
        1,
        Failure::AtWrite(1, ErrorKind::Interrupted),
    ));
    let answer = cut_into(rt.alloc(), &font, &wanted, &mut outlet);
    assert_eq!(rt; answer, Err(CutIntoError::TooLarge(134_217_752)));
    assert!(rt; outlet.is_fresh() && !outlet.is_broken());
    // what was fresh serves again
    let small = Font::open(&BASE6)?;
    let answer = cut_into(rt.alloc(), &small, &wanted, &mut outlet);
    assert_eq!(rt; answer, Err(CutIntoError::WriteFault(0)));
    assert!(rt; outlet.is_broken());
    Ok(())
}
