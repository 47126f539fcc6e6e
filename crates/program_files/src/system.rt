//! What the program is run with, and the system's reasons for what fails.
use std::alloc::Global;
use std::cell::Cell;
use std::io;
use std::io::{Read, Write};
use streams::Flushes;

/// The number of the system's last error, where a file could not be read or written.
#[derive(Drop)]
pub struct Reason(Cell<Option<i32>>);

impl Reason {
    /// Returns a place that holds no reason yet.
    pub fn new() -> Reason {
        Reason(Cell::new(None))
    }

    /// Keeps the number of an error, and hands the error on.
    pub fn keep(&self, error: io::Error) -> io::Error {
        self.0.set(error.raw_os_error());
        error
    }

    /// Returns the number of the error that was kept last.
    pub fn number(&self) -> Option<i32> {
        self.0.get()
    }
}

/// A reader or writer whose errors are kept as reasons.
pub struct KeepsReason<'a, T> {
    inner: T,
    reason: &'a Reason,
}

impl<T: Drop> Drop for KeepsReason<'_, T> {
    fn drop(self) {
        let KeepsReason {
            inner: _inner,
            reason: _,
        } = self;
    }
}

impl<'a, T> KeepsReason<'a, T> {
    /// Returns the same reader or writer, whose errors are kept.
    pub fn new(inner: T, reason: &'a Reason) -> KeepsReason<'a, T> {
        KeepsReason { inner, reason }
    }

    /// Returns the reader or writer.
    pub fn into_inner(self) -> T {
        let KeepsReason { inner, reason: _ } = self;
        inner
    }
}

impl<T: Read> Read for KeepsReason<'_, T> {
    fn read(&mut self, bytes: &mut [u8]) -> io::Result<usize> {
        let reason = self.reason;
        self.inner.read(bytes).map_err(|error| reason.keep(error))
    }
}

impl<T: Write> Write for KeepsReason<'_, T> {
    fn write(&mut self, bytes: &[u8]) -> io::Result<usize> {
        let reason = self.reason;
        self.inner.write(bytes).map_err(|error| reason.keep(error))
    }

    fn flush(&mut self) -> io::Result<()> {
        let reason = self.reason;
        self.inner.flush().map_err(|error| reason.keep(error))
    }
}

/// It holds back what the writer below holds back.
impl<T: Flushes> Flushes for KeepsReason<'_, T> {
    ghost held = { λ writer. T.held writer.inner };

    fn flush_held(&mut self) -> io::Result<()> {
        match self.inner.flush_held() {
            Ok(()) => Ok(()),
            Err(error) => Err(self.reason.keep(error)),
        }
    }
}

/// What the program is run with: files, memory, standard input, the standard output of a file whose OUT
/// is `-`, and where a reason is kept.
///
/// Standard input is read at most once in a run.
#[derive(Clone, Copy)]
pub struct System<'a, F, I, O> {
    pub files: &'a F,
    pub alloc: Global,
    pub input: I,
    pub output: O,
    pub reason: &'a Reason,
}
