//! Files that are written. A regular file is replaced whole: its bytes are gathered in a new file beside it.
//! This project's own.
use crate::held_files::HeldFiles;
use std::alloc::{AllocError, Global};
use std::fs::{OpenFile, OpenOptions, TryLockError};
use std::io::{ErrorKind, Write};
use std::os::unix::fs::{MetadataExt, OpenOptionsExt, chown};
use std::path::PathBuf;
use std::{fs, io};

// How many links a path is followed through, as many as Linux follows.
const LINKS: usize = 40;

// How many names are tried for the file beside OUT: one for each process that writes in its folder at a time.
const NAMES: u32 = 1_000_000;

// The number of the error that a file is there already, EEXIST.
const FILE_EXISTS: i32 = 17;

// The longest name of the file beside OUT.
const LONGEST: &str = ".fontcut-999999";

// Paths below these name open files of a process, which no other file can replace.
const HANDLES: [&str; 2] = ["/proc/", "/dev/fd/"];

/// The file at a path, which is written from its first write on and stands there once it is placed.
///
/// Where a regular file or none stands at the path, a new file beside it takes the bytes, and `place`
/// gives it the path's name. It is removed where it is dropped before that. A device, a pipe, and a file
/// in a folder that takes no new file are written to directly.
pub struct OutFile<'a, F: HeldFiles> {
    files: &'a F,
    // The path with the links at its end followed.
    path: PathBuf,
    // The path of the file beside it, and its name. Both have room for each name that is tried.
    beside: PathBuf,
    name: String,
    opened: Option<F::File>,
    // Whether the file beside it is there.
    is_beside: bool,
}

// Returns whether an error is that of memory.
fn is_memory(error: &io::Error) -> bool {
    error.kind() == ErrorKind::OutOfMemory
}

// Returns whether a path names an open file of a process.
fn is_handle(path: &PathBuf) -> bool {
    HANDLES
        .iter()
        .any(|start| path.as_path().as_str().starts_with(*start))
}

// Follows the links at the end of a path, also where the last one leads nowhere.
fn followed<F: HeldFiles>(files: &F, alloc: Global, path: &str) -> Result<PathBuf, AllocError> {
    let mut path = PathBuf::from_str(alloc, path)?;
    for _ in 0..LINKS {
        if is_handle(&path) {
            break;
        }
        match files.read_link(alloc, path.as_path().as_str()) {
            Ok(target) => {
                path.pop();
                path.push(target.as_path())?;
            }
            Err(error) if is_memory(&error) => return Err(AllocError),
            Err(_) => break,
        }
    }
    Ok(path)
}

/// Returns what is known of the regular file at a path, its links followed, where one stands there and would be
/// replaced.
///
/// # Errors
/// `AllocError` if out of memory.
pub fn standing_file<F: HeldFiles>(
    files: &F,
    alloc: Global,
    path: &str,
) -> Result<Option<fs::Metadata>, AllocError> {
    let path = followed(files, alloc, path)?;
    if is_handle(&path) {
        return Ok(None);
    }
    match fs::metadata(files, path.as_path()) {
        Ok(stands) if stands.is_file() => Ok(Some(stands)),
        _ => Ok(None),
    }
}

// Returns a path of a file beside a path, with room for another name after its own: `set_file_name`
// asks for that before it lets the old name go.
fn longest_beside(alloc: Global, path: &PathBuf) -> Result<PathBuf, AllocError> {
    let mut beside = match path.as_path().parent() {
        Some(folder) => folder.join(alloc, LONGEST)?,
        None => PathBuf::from_str(alloc, LONGEST)?,
    };
    beside.reserve(LONGEST.len() + 1)?;
    Ok(beside)
}

impl<'a, F: HeldFiles> OutFile<'a, F> {
    /// Returns the file at a path, at which nothing is changed yet. All memory that it needs is asked
    /// for here.
    ///
    /// # Errors
    /// `AllocError` if out of memory.
    pub fn new(files: &'a F, alloc: Global, path: &str) -> Result<OutFile<'a, F>, AllocError> {
        let path = followed(files, alloc, path)?;
        Ok(OutFile {
            files,
            beside: longest_beside(alloc, &path)?,
            name: String::from_str(alloc, LONGEST)?,
            path,
            opened: None,
            is_beside: false,
        })
    }

    // Puts a number into the name of the file beside the path.
    fn name_beside(&mut self, number: u32) -> io::Result<()> {
        self.name.clear();
        write!(self.name, ".fontcut-{number}")?;
        Ok(self.beside.set_file_name(self.name.as_str())?)
    }

    // Returns whether an open file is the one that has the name beside the path: another process may have
    // moved it to its OUT, or removed it.
    fn is_beside_path(&self, file: &F::File) -> io::Result<bool> {
        let opened = file.metadata()?;
        match fs::symlink_metadata(self.files, self.beside.as_path()) {
            Ok(stands) => Ok(opened.ino() == stands.ino() && opened.dev() == stands.dev()),
            Err(error) if error.kind() == ErrorKind::NotFound => Ok(false),
            Err(error) => Err(error),
        }
    }

    // Makes a file by the name beside the path and holds it, or returns none where a file has that name. Another
    // process may take the new file for one that is left, before it is held.
    fn create_named(&mut self, how: &OpenOptions) -> io::Result<Option<F::File>> {
        let file = match how.open(self.files, self.beside.as_path()) {
            Ok(file) => file,
            Err(error) if error.kind() == ErrorKind::AlreadyExists => return Ok(None),
            Err(error) => return Err(error),
        };
        match self.files.hold(&file) {
            Err(TryLockError::WouldBlock) => Ok(None),
            // A file system that has no locks still takes the file.
            _ if self.is_beside_path(&file)? => Ok(Some(file)),
            _ => Ok(None),
        }
    }

    // Removes the file of the name beside the path where no process holds it, and returns whether it did.
    fn remove_left(&self) -> io::Result<bool> {
        let stands = fs::symlink_metadata(self.files, self.beside.as_path())?;
        if !stands.is_file() {
            return Ok(false);
        }
        let file = OpenOptions::new()
            .write(true)
            .open(self.files, self.beside.as_path())?;
        if self.files.hold(&file).is_err() || !self.is_beside_path(&file)? {
            return Ok(false);
        }
        fs::remove_file(self.files, self.beside.as_path())?;
        Ok(true)
    }

    // Makes the file beside the path, by the first name that is free or that a process which was killed has
    // left.
    fn create_beside(&mut self, how: &OpenOptions) -> io::Result<F::File> {
        for number in 0..NAMES {
            self.name_beside(number)?;
            let mut made = self.create_named(how)?;
            if made.is_none() && self.remove_left().unwrap_or(false) {
                made = self.create_named(how)?;
            }
            if let Some(file) = made {
                self.is_beside = true;
                return Ok(file);
            }
        }
        Err(io::Error::from_raw_os_error(FILE_EXISTS))
    }

    // Makes the file beside the path, or else opens the file at the path where its folder takes no new one.
    fn create(&mut self, mode: u32) -> io::Result<F::File> {
        let mut how = OpenOptions::new();
        how.write(true).create_new(true).mode(mode);
        match self.create_beside(&how) {
            Err(error)
                if error.kind() == ErrorKind::PermissionDenied
                    || error.kind() == ErrorKind::ReadOnlyFilesystem => {
                fs::create(self.files, self.path.as_path())
            }
            other => other,
        }
    }

    // Makes the file that takes the place of a regular file, with its mode and, where that is allowed, its
    // owner. It is nobody else's to read before it has them. A file that may not be written is not replaced.
    fn replace(&mut self, stands: &fs::Metadata) -> io::Result<F::File> {
        drop(
            OpenOptions::new()
                .write(true)
                .open(self.files, self.path.as_path())?,
        );
        let file = self.create(0o600)?;
        if self.is_beside {
            let (owner, group) = (Some(stands.uid()), Some(stands.gid()));
            let _ = chown(self.files, self.beside.as_path(), owner, group);
            fs::set_permissions(self.files, self.beside.as_path(), stands.permissions())?;
        }
        Ok(file)
    }

    fn open(&mut self) -> io::Result<F::File> {
        match fs::metadata(self.files, self.path.as_path()) {
            Ok(stands) if stands.is_file() && !is_handle(&self.path) => self.replace(&stands),
            Err(error) if error.kind() == ErrorKind::NotFound => self.create(0o666),
            _ => fs::create(self.files, self.path.as_path()),
        }
    }

    /// Moves the finished file to the path.
    ///
    /// # Errors
    /// That of the system; then the path is as it was.
    pub fn place(mut self) -> io::Result<()> {
        // It is held until it has its new name.
        if self.is_beside {
            fs::rename(self.files, self.beside.as_path(), self.path.as_path())?;
            self.is_beside = false;
        }
        self.opened = None;
        Ok(())
    }
}

impl<F: HeldFiles> Write for OutFile<'_, F> {
    fn write(&mut self, bytes: &[u8]) -> io::Result<usize> {
        if self.opened.is_none() {
            self.opened = Some(self.open()?);
        }
        match &mut self.opened {
            Some(file) => file.write(bytes),
            None => Ok(0),
        }
    }

    fn flush(&mut self) -> io::Result<()> {
        match &mut self.opened {
            Some(file) => file.flush(),
            None => Ok(()),
        }
    }
}

/// What OUT is: a file, or standard output.
#[derive(Drop)]
pub enum Target<'a, F: HeldFiles, O> {
    /// The file at a path.
    File(OutFile<'a, F>),
    /// Standard output.
    Standard(O),
}

impl<F: HeldFiles, O: Write + Drop> Target<'_, F, O> {
    /// Moves the finished file to the path, where there is one.
    ///
    /// # Errors
    /// That of the system; then the path is as it was.
    pub fn place(self) -> io::Result<()> {
        match self {
            Target::Standard(_) => Ok(()),
            Target::File(file) => file.place(),
        }
    }
}

impl<F: HeldFiles, O: Write> Write for Target<'_, F, O> {
    fn write(&mut self, bytes: &[u8]) -> io::Result<usize> {
        match self {
            Target::File(file) => file.write(bytes),
            Target::Standard(output) => output.write(bytes),
        }
    }

    fn flush(&mut self) -> io::Result<()> {
        match self {
            Target::File(file) => file.flush(),
            Target::Standard(output) => output.flush(),
        }
    }
}

impl<F: HeldFiles> Drop for OutFile<'_, F> {
    fn drop(self) {
        let OutFile {
            files,
            path: _,
            beside,
            name: _,
            opened,
            is_beside,
        } = self;
        // It is held until it is gone.
        if is_beside {
            let _ = fs::remove_file(files, beside.as_path());
        }
        drop(opened);
    }
}
