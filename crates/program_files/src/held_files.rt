//! Files that a process holds while it writes them, so that another process sees which are left by one that ended, or
//! waits for it. This project's own.
use std::fs::TryLockError;
use std::io;
use std::rt::Files;

/// Files of which a process can hold those that it has opened.
pub trait HeldFiles: Files {
    /// Takes the lock of a file, which is free again when the file is closed or the process ends.
    ///
    /// # Errors
    /// `WouldBlock` where another process has it, and that of the system where files have no locks.
    fn hold(&self, file: &Self::File) -> Result<(), TryLockError>;

    /// Takes the lock of a file, as `hold` does, once no other process has it.
    ///
    /// # Errors
    /// That of the system where files have no locks.
    fn wait_for(&self, file: &Self::File) -> io::Result<()>;
}

impl HeldFiles for HostRuntime {
    fn hold(&self, file: &Self::File) -> Result<(), TryLockError> {
        file.try_lock()
    }

    fn wait_for(&self, file: &Self::File) -> io::Result<()> {
        file.lock()
    }
}
