//! Memory that is refused, request by request, up to a call that meets no refusal.
use crate::runs::{Command, Outcome, RUNS, State, is_done, made};
use commands::{RunError, run_join};
use fakes::Refusing;
use fakes::devices::{Failure, Narrow, Pieces};
use font_cut::{BASE6, JoinAllError, Outlet};
use std::alloc::Global;
use std::test::Fail;
use streams::{Inlet, ReadError};

// Returns whether a run that was refused its request of this number says so, and has sent nothing. A
// subset and a join ask for memory once before they read.
fn is_refused(run: Command, ended: &Outcome, k: u64) -> bool {
    let may_be_unread = k == 1 && run.sends_font();
    ended.answer == Err(RunError::Memory)
        && ended.is_fresh
        && ended.writer.held().is_empty()
        && !ended.inlets.contains(&State::Broken)
        && (ended.inlets[0] == State::Read || may_be_unread)
}

// Returns whether the run with each request for memory refused in turn is as it should be, up to one
// that meets no refusal.
fn is_refused_each(alloc: Global, run: Command) -> bool {
    for k in 1..200u64 {
        let memory = Refusing::new(alloc, k);
        let reader = Pieces::new(run.file(), 4096, Failure::Nowhere);
        let writer = Narrow::new(alloc, 4096, Failure::Nowhere);
        let ended = made(&memory, run, reader, writer);
        if !memory.has_refused() {
            return k > 1 && is_done(run, &ended);
        }
        if !is_refused(run, &ended, k) {
            return false;
        }
    }
    false
}

#[test]
fn refused_memory_in_runs(rt: HostRuntime) {
    for run in RUNS {
        assert!(rt; is_refused_each(rt.alloc(), run), "{run:?}");
    }
}

// Tells whether each refusal of memory is answered where an inlet is read to its end.
fn is_refused_each_in_read_all(alloc: Global, file: &[u8]) -> bool {
    for k in 1..100u64 {
        let memory = Refusing::new(alloc, k);
        let mut inlet = Inlet::new(file);
        let answer = inlet.read_all(&memory);
        if inlet.is_fresh() || inlet.is_broken() {
            return false;
        }
        match answer {
            Ok(came) => return k > 1 && !memory.has_refused() && came.as_slice() == file,
            Err(ReadError::NoMemory) if memory.has_refused() => {}
            Err(_) => return false,
        }
    }
    false
}

#[test]
fn refused_memory_in_read_all(rt: HostRuntime) -> Result<(), Fail> {
    let mut file = Vec::new(rt.alloc());
    for _ in 0..500 {
        file.extend_from_slice(&BASE6)?;
    }
    assert!(rt; is_refused_each_in_read_all(rt.alloc(), &file));
    Ok(())
}

// No memory is asked for.
#[test]
fn nothing_to_join(rt: HostRuntime) {
    let memory = Refusing::new(rt.alloc(), 1);
    let mut inlets: [Inlet<&[u8]>; 0] = [];
    let mut outlet = Outlet::new(Vec::new(rt.alloc()));
    let answer = run_join(&memory, &mut inlets, &mut outlet);
    assert_eq!(rt; answer, Err(RunError::Join(JoinAllError::NothingToJoin)));
    assert!(rt; outlet.is_fresh());
    assert_eq!(rt; memory.requests(), 0);
}
