//! A writer that counts the bytes it took, and stays broken after its first failure.
ghost use Rattle.std.specs.Prelude.{◌≡◌, ℕ, ◌++◌, List, IsSome, ◌+◌, ◌-◌, ◌^◌, ◌<◌, [], take, false, true, length, IfErr, OnErr, OnOk, Some};
ghost use Rattle.sfnt_bytes.specs.declared.numbers.TheConstants.{WRITE_FAULT};
ghost use Rattle.streams.specs.Outlet.{HasSent, IsFlushed, WentOut, broken_of, flushed_of, fresh_of, write_fault_text, writer_of, written_of};

use crate::flushes::Flushes;
use sfnt_bytes::numbers;
use std::error::Error;
use std::fmt;
use std::io::Write;

/// A write or a flush failed, or a write took nothing.
#[derive(Clone, Copy, Debug, PartialEq, Eq)]
pub struct WriteFault {
    /// The count of the bytes that had gone out since the outlet was new.
    pub written: u64,
}

impl WriteFault {
    /// Returns the number of this refusal.
    pub fn number(&self) -> u8
        ensures { result ≡ WRITE_FAULT }
    {
        numbers::WRITE_FAULT
    }
}

impl fmt::Display for WriteFault {
    ghost output = { λ fault. Some (write_fault_text fault) };

    fn fmt<W: fmt::Write>(&self, f: &mut fmt::Formatter<W>) -> fmt::Result {
        let written = self.written;
        write!(f, "write fault after {written}")
    }
}

impl Error for WriteFault {}

/// A writer, the count of the bytes that it took, whether it has failed, and whether all that it took was flushed.
#[derive(Drop)]
pub struct Outlet<W> {
    writer: W,
    written: u64,
    broken: bool,
    flushed: bool,
}

impl<W: Write> Outlet<W> {
    /// Returns an outlet that has sent nothing.
    pub fn new(writer: W) -> Outlet<W>
        ensures fresh { fresh_of result ≡ true }
        ensures writer { writer_of result ≡ writer }
        ensures sent { IsSome (W.contents writer) → HasSent W.contents result [] }
    {
        Outlet {
            writer,
            written: 0,
            broken: false,
            flushed: false,
        }
    }

    /// Returns the number of bytes that the writer took.
    pub fn written(&self) -> u64
        ensures { result ≡ written_of self.now }
    {
        self.written
    }

    /// Returns whether a call has answered `WriteFault`.
    pub fn is_broken(&self) -> bool
        ensures { result ≡ broken_of self.now }
    {
        self.broken
    }

    /// Returns whether `finish` has flushed the writer, and nothing was put since.
    pub fn is_flushed(&self) -> bool
        ensures { result ≡ flushed_of self.now }
    {
        self.flushed
    }

    /// Returns whether nothing was sent, and nothing has failed.
    pub fn is_fresh(&self) -> bool
        ensures { result ≡ fresh_of self.now }
    {
        self.written == 0 && !self.broken
    }

    /// Sends all of `bytes`. An interrupted write is a failed one, and is not tried again.
    ///
    /// # Errors
    /// `WriteFault` where a write fails, or takes none of the bytes that are left. What went out is a
    /// front of `bytes`, and the outlet is broken.
    pub fn put(&mut self, bytes: &[u8]) -> Result<(), WriteFault>
        requires whole { broken_of self.old ≡ false }
        requires fits { written_of self.old + length bytes.now < 2 ^ 64 }

        ensures ok { OnOk result (WentOut W.contents self.old self.new bytes.now) }
        ensures sent { OnOk result ((bs : List ℕ) → HasSent W.contents self.old bs →
            HasSent W.contents self.new (bs ++ bytes.now)) }
        ensures unbroken { OnOk result (broken_of self.new ≡ false) }
        ensures unflushed { flushed_of self.new ≡ false }

        // What went out before a failure is a front of the bytes, and never all of them.
        ensures broken { OnErr result (broken_of self.new ≡ true) }
        ensures count { IfErr result (λ fault. fault.written ≡ written_of self.new) }
        ensures short { OnErr result (written_of self.new < written_of self.old + length bytes.now) }
        ensures prefix { OnErr result (WentOut W.contents self.old self.new
            (take (written_of self.new - written_of self.old) bytes.now)) }
    {
        self.flushed = false;
        let mut at = 0;
        while at < bytes.len() {
            match self.writer.write(&bytes[at..]) {
                Ok(count) if count > 0 => {
                    at += count;
                    self.written += count as u64;
                }
                _ => {
                    self.broken = true;
                    return Err(WriteFault {
                        written: self.written,
                    });
                }
            }
        }
        Ok(())
    }

    /// Returns the writer as it stands, without a flush.
    pub fn into_inner(self) -> W
        ensures { result ≡ writer_of self }
    {
        self.writer
    }
}

impl<W: Flushes> Outlet<W> {
    /// Flushes the writer, which sends no byte anew: nothing that it took is held back afterwards.
    ///
    /// # Errors
    /// `WriteFault` where the flush fails; the outlet is broken.
    pub fn finish(&mut self) -> Result<(), WriteFault>
        requires { broken_of self.old ≡ false }
        ensures sends { WentOut W.contents self.old self.new [] }
        ensures unbroken { OnOk result (broken_of self.new ≡ false) }
        ensures flushed { OnOk result (IsFlushed W.held self.new) }
        ensures broken { OnErr result (broken_of self.new ≡ true) }
        ensures count { IfErr result (λ fault. fault.written ≡ written_of self.new) }
    {
        match self.writer.flush_held() {
            Ok(()) => {
                self.flushed = true;
                Ok(())
            }
            Err(_) => {
                self.broken = true;
                Err(WriteFault {
                    written: self.written,
                })
            }
        }
    }
}
