//! Writers that say which of the bytes that they took have not left them. This project's own.
ghost use Rattle.std.specs.Prelude.{◌≡◌, OnOk, []};
ghost use Rattle.std.specs.Io.KnownBytes.{Keeps};

use std::alloc::Allocator;
use std::io;
use std::io::{BufWriter, Stdout, Write};

/// A writer that can send all that it holds back.
pub trait Flushes: Write {
    ghost use Rattle.std.specs.Prelude.{ℕ, List};

    /// The bytes that it took and has not passed on.
    ghost held: { Self → List ℕ };

    /// Passes on what is held back.
    ///
    /// # Errors
    /// That of a write or of a flush below.
    fn flush_held(&mut self) -> io::Result<()>
        ensures bytes { Keeps (Self.contents self.old) (Self.contents self.new) }
        ensures none { OnOk result (held self.new ≡ []) };
}

/// It holds back what is in its buffer.
impl<W: Write + Drop, A: Allocator> Flushes for BufWriter<W, A> {
    ghost use Rattle.std.specs.Io.Buffered.{writer_buffer};

    ghost held = { λ w. writer_buffer w };

    fn flush_held(&mut self) -> io::Result<()> {
        self.flush()
    }
}

/// It holds nothing back.
impl<A: Allocator> Flushes for Vec<u8, A> {
    ghost use Rattle.std.specs.Prelude.{[]};

    ghost held = { λ _. [] };

    fn flush_held(&mut self) -> io::Result<()> {
        Write::flush(self)
    }
}

/// It holds nothing back: each write is one of the system.
impl Flushes for Stdout {
    ghost use Rattle.std.specs.Prelude.{[]};

    ghost held = { λ _. [] };

    fn flush_held(&mut self) -> io::Result<()> {
        Write::flush(self)
    }
}
