//! OUT as runs write it: a file or standard output, whose errors are kept. It is one type, so that what is proved of the
//! writers in it is proved here, and not again at each call of a run. This project's own.
ghost use Rattle.std.specs.Prelude.{◌≡◌, []};
ghost use Rattle.std.specs.Io.Buffered.{writer_buffer};

use crate::held_files::HeldFiles;
use crate::out_file::{OutFile, Target};
use crate::system::{KeepsReason, System};
use std::alloc::AllocError;
use std::io;
use std::io::{BufWriter, Write};
use streams::Flushes;

// The bytes that are gathered for one write of a file: a cut is made of many short pieces.
const BLOCK: usize = 16 * 1024;

/// The file at a path, or standard output. It gathers a block of bytes for each write.
pub struct OutWriter<'a, F: HeldFiles, O: Write + Drop> {
    inner: BufWriter<KeepsReason<'a, Target<'a, F, O>>>,
}

impl<F: HeldFiles, O: Write + Drop> Drop for OutWriter<'_, F, O> {
    fn drop(self) {
        let OutWriter { inner: _inner } = self;
    }
}

impl<'a, F: HeldFiles, O: Write + Copy + Drop> OutWriter<'a, F, O> {
    // Returns what gathers blocks of bytes for OUT.
    fn over<I>(
        system: &System<'a, F, I, O>,
        target: Target<'a, F, O>,
    ) -> Result<OutWriter<'a, F, O>, AllocError> {
        let kept = KeepsReason::new(target, system.reason);
        match BufWriter::with_capacity(system.alloc, BLOCK, kept) {
            Ok(inner) => Ok(OutWriter { inner }),
            Err(_) => Err(AllocError),
        }
    }

    /// Returns the file at a path. Nothing is made before the first write.
    ///
    /// # Errors
    /// `AllocError` if out of memory.
    pub fn at<I>(
        system: &System<'a, F, I, O>,
        path: &str,
    ) -> Result<OutWriter<'a, F, O>, AllocError> {
        let file = OutFile::new(system.files, system.alloc, path)?;
        OutWriter::over(system, Target::File(file))
    }

    /// Returns standard output.
    ///
    /// # Errors
    /// `AllocError` if out of memory.
    pub fn standard<I>(system: &System<'a, F, I, O>) -> Result<OutWriter<'a, F, O>, AllocError> {
        OutWriter::over(system, Target::Standard(system.output))
    }

    /// Moves the finished file to OUT, where there is one. It was flushed: no byte is left in the block, which is let go
    /// here.
    ///
    /// # Errors
    /// That of the system; then the path is as it was.
    pub fn place(self) -> io::Result<()>
        requires { writer_buffer self.inner ≡ [] }
    {
        let OutWriter { inner } = self;
        let (target, _) = inner.into_parts();
        target.into_inner().place()
    }
}

impl<F: HeldFiles, O: Write + Drop> Write for OutWriter<'_, F, O> {
    fn write(&mut self, bytes: &[u8]) -> io::Result<usize> {
        self.inner.write(bytes)
    }

    fn flush(&mut self) -> io::Result<()> {
        self.inner.flush()
    }
}

/// It holds back what is in the block.
impl<F: HeldFiles, O: Write + Drop> Flushes for OutWriter<'_, F, O> {
    ghost use Rattle.std.specs.Io.Buffered.{writer_buffer};

    ghost held = { λ writer. writer_buffer writer.inner };

    fn flush_held(&mut self) -> io::Result<()> {
        self.inner.flush()
    }
}
