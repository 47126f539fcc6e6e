//! Readers and writers for tests: they give and take little, and fail once, at a call of the test's
//! choice. A call that was tried again would succeed, and be seen by that.
use std::alloc::Global;
use std::io;
use std::io::{ErrorKind, Read, Write};
use streams::Flushes;

/// Which call fails. The first call of a sort has the number 1.
#[derive(Clone, Copy, Debug, PartialEq, Eq)]
pub enum Failure {
    /// None does.
    Nowhere,
    /// The read of this number is an error of this kind.
    AtRead(u64, ErrorKind),
    /// The write of this number is an error of this kind.
    AtWrite(u64, ErrorKind),
    /// The write of this number takes no byte.
    TakesNoneAt(u64),
    /// This number of bytes is taken in all, and then none.
    Full(usize),
    /// The first flush is an error of this kind.
    AtFlush(ErrorKind),
}

/// A reader of given bytes, at most `piece` of them a read.
#[derive(Drop)]
pub struct Pieces<'a> {
    rest: &'a [u8],
    piece: usize,
    failure: Failure,
    reads: u64,
}

impl<'a> Pieces<'a> {
    /// Returns a reader of these bytes. Of the failures, a failed read alone concerns it.
    pub fn new(rest: &'a [u8], piece: usize, failure: Failure) -> Pieces<'a> {
        Pieces {
            rest,
            piece,
            failure,
            reads: 0,
        }
    }
}

impl Read for Pieces<'_> {
    fn read(&mut self, buf: &mut [u8]) -> io::Result<usize> {
        self.reads = self.reads.saturating_add(1);
        match self.failure {
            Failure::AtRead(k, kind) if k == self.reads => Err(io::Error::from(kind)),
            _ => {
                let most = self.piece.min(buf.len());
                self.rest.read(&mut buf[..most])
            }
        }
    }
}

/// A writer that holds what it takes, at most `piece` bytes a write.
#[derive(Drop)]
pub struct Narrow {
    held: Vec<u8>,
    piece: usize,
    failure: Failure,
    writes: u64,
    has_failed: bool,
}

impl Narrow {
    /// Returns a writer that holds nothing yet. Of the failures, a failed read does not concern it.
    pub fn new(alloc: Global, piece: usize, failure: Failure) -> Narrow {
        Narrow {
            held: Vec::new(alloc),
            piece,
            failure,
            writes: 0,
            has_failed: false,
        }
    }

    /// Returns what it took.
    pub fn held(&self) -> &[u8] {
        self.held.as_slice()
    }

    /// Returns whether the call that is to fail has come.
    pub fn has_failed(&self) -> bool {
        self.has_failed
    }

    // Returns how many bytes the next write takes at most.
    fn room(&self) -> usize {
        match self.failure {
            Failure::Full(room) => self.piece.min(room.saturating_sub(self.held.len())),
            Failure::TakesNoneAt(k) if k == self.writes => 0,
            _ => self.piece,
        }
    }
}

impl Write for Narrow {
    fn write(&mut self, buf: &[u8]) -> io::Result<usize> {
        self.writes = self.writes.saturating_add(1);
        match self.failure {
            Failure::AtWrite(k, kind) if k == self.writes => {
                self.has_failed = true;
                Err(io::Error::from(kind))
            }
            _ => {
                let most = self.room().min(buf.len());
                self.has_failed |= most == 0;
                self.held.write(&buf[..most])
            }
        }
    }

    fn flush(&mut self) -> io::Result<()> {
        match self.failure {
            Failure::AtFlush(kind) if !self.has_failed => {
                self.has_failed = true;
                Err(io::Error::from(kind))
            }
            _ => Ok(()),
        }
    }
}

impl Flushes for Narrow {
    ghost use Rattle.std.specs.Prelude.{[]};

    ghost held = { λ _. [] };

    fn flush_held(&mut self) -> io::Result<()> {
        self.flush()
    }
}

/// A writer that counts what it takes, which is all.
#[derive(Drop)]
pub struct Counting {
    count: u64,
}

impl Counting {
    /// Returns a writer that has taken nothing yet.
    pub fn new() -> Counting {
        Counting { count: 0 }
    }

    /// Returns how many bytes it took.
    pub fn count(&self) -> u64 {
        self.count
    }
}

impl Write for Counting {
    fn write(&mut self, buf: &[u8]) -> io::Result<usize> {
        self.count = self.count.saturating_add(buf.len() as u64);
        Ok(buf.len())
    }

    fn flush(&mut self) -> io::Result<()> {
        Ok(())
    }
}
