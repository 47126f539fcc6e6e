//! A reader that is read once, to its end or to one byte more than a file may have.
ghost use Rattle.std.specs.Prelude.{◌≡◌, ◌+◌, ◌<◌, ◌≤◌, Err, take, false, true, length, vec_len, IfOk, IfErr, OnErr, OnOk, IfSome, Some};
ghost use Rattle.std.specs.Io.KnownBytes.{Consumes, IsAtEnd, Keeps};
ghost use Rattle.sfnt_bytes.specs.Memory.{IsRefusedUpTo};
ghost use Rattle.streams.specs.Inlet.{StopsAs, inlet_broken_of, read_error_number, read_error_text, inlet_fresh_of, reader_of};

use sfnt_bytes::{MAX_FILE, Memory, NoMemory, numbers};
use std::error::Error;
use std::io::Read;
use std::{fmt, io};

// This number of bytes shows that a file is too large, whatever follows them.
const LIMIT: usize = MAX_FILE as usize + 1;

// The most bytes of one read. It goes to the stack and is copied from there: room in a vector must be
// filled with zeros before it is read into, and a vector that doubles by zeros touches twice the pages.
// It is short, for in a small font the first touch of a page costs more than reading it.
const PIECE: usize = 16 * 1024;

// The bytes that there is room for at first. The C library lets a block of this size grow by mapping its
// pages elsewhere, where it copies a smaller one.
const ROOM: usize = 256 * 1024;

/// Why a reader was not read to its end.
#[derive(Clone, Copy, Debug, PartialEq, Eq)]
pub enum ReadError {
    /// A read failed after this number of bytes.
    ReadFault(u64),
    /// There is no memory for the bytes.
    NoMemory,
}

impl ReadError {
    /// Returns the number of this refusal.
    pub fn number(&self) -> u8
        ensures { result ≡ read_error_number self.now }
    {
        match self {
            ReadError::ReadFault(_) => numbers::READ_FAULT,
            ReadError::NoMemory => numbers::NO_MEMORY,
        }
    }
}

impl fmt::Display for ReadError {
    ghost output = { λ error. Some (read_error_text error) };

    fn fmt<W: fmt::Write>(&self, f: &mut fmt::Formatter<W>) -> fmt::Result {
        match self {
            ReadError::ReadFault(count) => write!(f, "read fault after {count}"),
            ReadError::NoMemory => write!(f, "no memory"),
        }
    }
}

impl Error for ReadError {}

#[derive(Clone, Copy, Debug, PartialEq, Eq)]
enum State {
    Fresh,
    Spent,
    Broken,
}

/// A reader, and whether it was read or has failed.
#[derive(Drop)]
pub struct Inlet<R> {
    reader: R,
    state: State,
}

// Reads once, at most `most` bytes, to the front of `piece`.
fn read_piece<R: Read>(reader: &mut R, piece: &mut [u8], most: usize) -> io::Result<usize>
    requires room { 0 < most }
    requires fits { most ≤ length piece.old }
    ensures count { IfOk result (λ count. count ≤ most) }
    ensures came { IfOk result (λ count. Consumes (R.remaining reader.old) (R.remaining reader.new)
        (take count piece.new)) }
    ensures end { IfOk result (λ count. count ≡ 0 → IsAtEnd (R.remaining reader.new)) }
    ensures kept { OnErr result (Keeps (R.remaining reader.old) (R.remaining reader.new)) }
{
    reader.read(&mut piece[..most])
}

impl<R: Read> Inlet<R> {
    /// Returns an inlet that was not read.
    pub fn new(reader: R) -> Inlet<R>
        ensures fresh { inlet_fresh_of result ≡ true }
        ensures whole { inlet_broken_of result ≡ false }
        ensures reader { reader_of result ≡ reader }
    {
        Inlet {
            reader,
            state: State::Fresh,
        }
    }

    /// Returns whether `read_all` was not called.
    pub fn is_fresh(&self) -> bool
        ensures { result ≡ inlet_fresh_of self.now }
    {
        matches!(self.state, State::Fresh)
    }

    /// Returns whether `read_all` has answered `ReadFault`.
    pub fn is_broken(&self) -> bool
        ensures { result ≡ inlet_broken_of self.now }
    {
        matches!(self.state, State::Broken)
    }

    /// Reads until a read gives no byte, or one byte more than `MAX_FILE` has come. An interrupted
    /// read is a failed one, and is not tried again.
    ///
    /// # Errors
    /// `ReadFault` where a read fails, with the count of the bytes that had come; the inlet is broken.
    /// `NoMemory` if there is no room for the bytes; the inlet is not broken.
    // It stands apart, so that its array is on the stack once, and not for each inlet of a caller.
    #[inline(never)]
    pub fn read_all<A: Memory>(&mut self, alloc: A) -> Result<Vec<u8, A>, ReadError>
        requires { inlet_fresh_of self.old ≡ true }
        ensures spent { inlet_fresh_of self.new ≡ false }

        ensures limit { IfOk result (λ bytes. vec_len bytes ≤ MAX_FILE + 1) }
        ensures got { IfOk result (λ bytes. IfSome (R.remaining (reader_of self.old))
            (λ xs. bytes.items ≡ take (MAX_FILE + 1) xs)) }
        ensures came { IfOk result (λ bytes. Consumes (R.remaining (reader_of self.old))
            (R.remaining (reader_of self.new)) bytes.items) }
        ensures whole { OnOk result (inlet_broken_of self.new ≡ false) }

        // `ReadFault(n)` breaks it after n bytes, and `NoMemory` does not.
        ensures error { IfErr result (StopsAs R.remaining self.old self.new) }
        ensures memory { result ≡ Err ReadError.NoMemory → IsRefusedUpTo A.refuses (MAX_FILE + 1) }
    {
        self.state = State::Spent;
        let mut bytes = match alloc.room_for(ROOM) {
            Ok(bytes) => bytes,
            Err(NoMemory) => return Err(ReadError::NoMemory),
        };
        let mut piece = [0u8; PIECE];
        while bytes.len() < LIMIT {
            let most = PIECE.min(LIMIT - bytes.len());
            match read_piece(&mut self.reader, &mut piece, most) {
                Ok(0) => return Ok(bytes),
                Ok(count) => {
                    if let Err(NoMemory) = A::append(&mut bytes, &piece[..count]) {
                        return Err(ReadError::NoMemory);
                    }
                }
                Err(_) => {
                    self.state = State::Broken;
                    return Err(ReadError::ReadFault(bytes.len() as u64));
                }
            }
        }
        Ok(bytes)
    }
}
