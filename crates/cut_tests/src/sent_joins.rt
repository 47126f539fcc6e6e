//! Joins that are sent: to writers that fail at each write, and where each request for memory is refused.
use crate::answers::{Outcome, answered, refused_in_turn};
use crate::refused_joins::step_of_many;
use crate::samples::copies;
use fakes::Refusing;
use fakes::devices::{Failure, Narrow};
use font_cut::{JoinAllIntoError, Outlet, join_all_into};
use sample_fonts::known_cuts::{A_AND_B, A_B_AACUTE, AACUTE};
use std::alloc::Global;
use std::io::ErrorKind;

// What a join answered, and what its outlet and its writer say then.
#[derive(Clone, Copy, Debug, PartialEq, Eq)]
struct Sent {
    answer: Result<u64, JoinAllIntoError>,
    // Whether the write that was to fail came.
    has_failed: bool,
    is_broken: bool,
    written: u64,
    // How many bytes of the cut for 0x41, 0x42 and 0xC1 the writer holds, and none where it holds others.
    held: Option<usize>,
}

// Sends the join of these files, at most seven bytes a write. It is none if out of memory.
fn send(alloc: Global, files: &[&[u8]], failure: Failure) -> Option<Sent> {
    let copied = copies(alloc, alloc, files).ok()?;
    let mut outlet = Outlet::new(Narrow::new(alloc, 7, failure));
    let answer = join_all_into(alloc, &copied, &mut outlet);
    let (written, is_broken) = (outlet.written(), outlet.is_broken());
    let writer = outlet.into_inner();
    let held = writer.held();
    let is_front = A_B_AACUTE.starts_with(held);
    Some(Sent {
        answer,
        has_failed: writer.has_failed(),
        is_broken,
        written,
        held: if is_front { Some(held.len()) } else { None },
    })
}

#[test]
fn failing_writers(rt: HostRuntime) {
    for k in 1..1000u64 {
        let failure = Failure::AtWrite(k, ErrorKind::Interrupted);
        let Some(sent) = send(rt.alloc(), &[&AACUTE, &A_AND_B], failure) else {
            panic!(rt; "no memory")
        };
        assert_eq!(rt; sent.held, Some(sent.written as usize), "write {k}");
        assert_eq!(rt; sent.is_broken, sent.has_failed, "write {k}");
        if !sent.has_failed {
            assert_eq!(rt; sent.answer, Ok(448), "write {k}");
            return;
        }
        let fault = JoinAllIntoError::WriteFault(sent.written);
        assert_eq!(rt; sent.answer, Err(fault), "write {k}");
    }
    panic!(rt; "each write failed")
}

// The outlet is fresh where memory was refused.
fn send_without(alloc: Global, k: u64, files: &[&[u8]]) -> Outcome {
    let memory = Refusing::new(alloc, k);
    let Ok(copied) = copies(alloc, &memory, files) else {
        return Outcome::Other;
    };
    let mut outlet = Outlet::new(Vec::new(alloc));
    let sent = join_all_into(&memory, &copied, &mut outlet);
    let step = match sent {
        Err(JoinAllIntoError::NotJoined(error)) if outlet.is_fresh() => step_of_many(error),
        _ => None,
    };
    let is_stated = sent == Ok(448) && outlet.into_inner().as_slice() == A_B_AACUTE.as_slice();
    answered(memory.has_refused(), step, is_stated)
}

// The files have one request each.
#[test]
fn refused_memory_in_join_all_into(rt: HostRuntime) {
    let (alloc, files) = (rt.alloc(), [AACUTE.as_slice(), &A_AND_B, &A_AND_B]);
    let found = refused_in_turn(4, |k| send_without(alloc, k, &files));
    assert!(rt; matches!(found, Some((_, 2))), "{found:?}");
}
