//! Each read, write and flush of each run fails in turn, with each kind of error.
use crate::runs::{Command, Outcome, RUNS, failing, is_done};
use commands::RunError::{self, Read, Write};
use fakes::devices::Failure::{self, AtFlush, AtRead, AtWrite, TakesNoneAt};
use std::alloc::Global;
use std::io::ErrorKind::{self, Interrupted, Other, WriteZero};

const PIECES: [usize; 3] = [1, 7, 4096];

const KINDS: [ErrorKind; 3] = [Interrupted, Other, WriteZero];

// More reads and writes than any run makes.
const MANY: u64 = 500;

// Returns whether a run ended with a failed read after this number of bytes, and sent nothing.
fn is_unread(run: Command, ended: &Outcome, came: u64) -> bool {
    ended.answer == Err(Read(came))
        && ended.inlets == run.stopped()
        && ended.is_fresh
        && ended.writer.held().is_empty()
}

// Returns whether a run ended with a failed write, and says how many bytes went out, which are a front.
fn is_unwritten(run: Command, ended: &Outcome) -> bool {
    let held = ended.writer.held();
    ended.answer == Err(Write(held.len() as u64))
        && ended.inlets == run.read()
        && ended.is_broken
        && ended.written == held.len() as u64
        && run.text().starts_with(held)
}

// The rows that are worked by hand: how many bytes a call, which call fails, and the error.
const WORKED: [(Command, usize, Failure, RunError); 23] = [
    (Command::Subset, 1, AtWrite(101, Interrupted), Write(100)),
    (Command::Subset, 1, AtWrite(412, Interrupted), Write(411)),
    (Command::Subset, 1, TakesNoneAt(1), Write(0)),
    (Command::Subset, 4096, AtWrite(1, Interrupted), Write(0)),
    (Command::Subset, 4096, AtFlush(Other), Write(412)),
    (Command::Subset, 4096, AtRead(1, Interrupted), Read(0)),
    (Command::Subset, 100, AtRead(3, Interrupted), Read(200)),
    (Command::Subset, 428, AtRead(2, Interrupted), Read(428)),
    (Command::JoinSecond, 4096, AtRead(1, Interrupted), Read(0)),
    (Command::JoinSecond, 100, AtRead(2, Interrupted), Read(100)),
    (Command::JoinSecond, 412, AtRead(2, Interrupted), Read(412)),
    (
        Command::JoinSecond,
        1,
        AtWrite(101, Interrupted),
        Write(100),
    ),
    (Command::JoinSecond, 1, TakesNoneAt(448), Write(447)),
    (Command::JoinSecond, 4096, AtWrite(1, Interrupted), Write(0)),
    (Command::JoinSecond, 4096, AtFlush(Other), Write(448)),
    (Command::Show, 100, AtRead(3, Interrupted), Read(200)),
    (Command::Show, 7, AtWrite(4, Interrupted), Write(21)),
    (Command::Show, 7, AtFlush(Other), Write(169)),
    (Command::Check, 4096, AtFlush(Other), Write(20)),
    (
        Command::BelongsFirst,
        100,
        AtRead(2, Interrupted),
        Read(100),
    ),
    (
        Command::BelongsSecond,
        100,
        AtRead(3, Interrupted),
        Read(200),
    ),
    (Command::BelongsFirst, 1, AtWrite(3, Interrupted), Write(2)),
    (Command::BelongsSecond, 4096, AtFlush(Other), Write(4)),
];

// Returns whether a run ended with this error, and left inlets, outlet and writer as that says.
fn has_stopped(run: Command, ended: &Outcome, error: RunError) -> bool {
    match error {
        Read(came) => is_unread(run, ended, came),
        _ => ended.answer == Err(error) && is_unwritten(run, ended),
    }
}

#[test]
fn failing_devices(rt: HostRuntime) {
    for (run, piece, failure, error) in WORKED {
        let ended = failing(rt.alloc(), run, piece, failure);
        assert!(rt; has_stopped(run, &ended, error), "{run:?}, {failure:?}");
    }
}

// Returns how many bytes come before the read of this number, and none where no read has that number.
fn came_before(run: Command, piece: usize, k: u64) -> Option<u64> {
    let length = run.file().len() as u64;
    let came = (piece as u64).saturating_mul(k.saturating_sub(1));
    // the last read finds the end
    if came < length.saturating_add(piece as u64) {
        Some(came.min(length))
    } else {
        None
    }
}

// Returns whether the run with each read failing in turn is as it should be, up to one that meets no
// failure.
fn fails_at_each_read(alloc: Global, run: Command, piece: usize, kind: ErrorKind) -> bool {
    for k in 1..MANY {
        let ended = failing(alloc, run, piece, AtRead(k, kind));
        match came_before(run, piece, k) {
            Some(came) if is_unread(run, &ended, came) => {}
            Some(_) => return false,
            None => return k > 1 && is_done(run, &ended),
        }
    }
    false
}

// Returns whether this number of bytes go out before the write of this number. A report is sent by one call; of
// a cut it is known where each write takes one byte.
fn is_count(run: Command, piece: usize, k: u64, written: u64) -> bool {
    let count = (piece as u64).saturating_mul(k.saturating_sub(1));
    written == count || run.sends_font() && piece != 1
}

// Returns whether the run with each write failing in turn is as it should be, up to one that meets no
// failure. Where there is no kind of error, the write takes nothing.
fn fails_at_each_write(alloc: Global, run: Command, piece: usize, kind: Option<ErrorKind>) -> bool {
    for k in 1..MANY {
        let failure = match kind {
            Some(kind) => AtWrite(k, kind),
            None => TakesNoneAt(k),
        };
        let ended = failing(alloc, run, piece, failure);
        if !ended.writer.has_failed() {
            return k > 1 && is_done(run, &ended);
        }
        if !is_unwritten(run, &ended) || !is_count(run, piece, k, ended.written) {
            return false;
        }
    }
    false
}

#[test]
fn failing_reads_and_writes(rt: HostRuntime) {
    for run in RUNS {
        for piece in PIECES {
            for kind in KINDS {
                let is_stated = fails_at_each_read(rt.alloc(), run, piece, kind)
                    && fails_at_each_write(rt.alloc(), run, piece, Some(kind));
                assert!(rt; is_stated, "{run:?}, {piece}, {kind:?}");
            }
            let is_stated = fails_at_each_write(rt.alloc(), run, piece, None);
            assert!(rt; is_stated, "{run:?}, {piece}, a write that takes nothing");
        }
    }
}

// All went out, but nobody knows whether it arrived.
#[test]
fn failing_flushes(rt: HostRuntime) {
    for run in RUNS {
        for kind in KINDS {
            let ended = failing(rt.alloc(), run, 4096, AtFlush(kind));
            assert!(rt; ended.writer.has_failed(), "{run:?}, {kind:?}");
            assert!(rt; is_unwritten(run, &ended), "{run:?}, {kind:?}");
            assert_eq!(rt; ended.writer.held(), run.text(), "{kind:?}");
        }
    }
}
