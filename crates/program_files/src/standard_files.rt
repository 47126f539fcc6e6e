//! Standard input, output and error: those that are closed, and whether one is a terminal. This project's own.
use std::fs::OpenOptions;
use std::os::fd::AsRawFd;
use std::os::unix::fs::{FileTypeExt, MetadataExt};
use std::{fs, mem};

// Where standard output is found as a file.
const OUTPUT: &str = "/proc/self/fd/1";

// The last of the descriptors of standard input, output and error, which are 0 to 2.
const LAST_STANDARD: i32 = 2;

// Opens `/dev/null`, and leaves it open until the program ends where its descriptor is at most this one. Returns
// whether it is.
fn fill(rt: &HostRuntime, how: &OpenOptions, last: i32) -> bool {
    match how.open(rt, "/dev/null") {
        Ok(file) if file.as_raw_fd() <= last => {
            mem::forget(file);
            true
        }
        _ => false,
    }
}

/// Opens `/dev/null` for those of standard input, output and error that are closed. The next files to be opened would
/// take their numbers, and what is printed would go there. Reads of the first and writes to the others fail, as before.
pub fn fill_standard(rt: &HostRuntime) {
    fill(rt, OpenOptions::new().write(true), 0);
    for _ in 0..LAST_STANDARD {
        if !fill(rt, OpenOptions::new().read(true), LAST_STANDARD) {
            return;
        }
    }
}

// Returns whether a device of this number is a terminal: a console, a serial line, or one of a window or of a session over
// the network. Linux, Documentation/admin-guide/devices.txt.
fn is_terminal(device: u64) -> bool {
    let major = device >> 8 & 0xFFF;
    matches!(major, 3..=5 | 136..=143 | 204)
}

/// Returns whether standard output is a terminal.
pub(crate) fn prints_to_terminal(rt: &HostRuntime) -> bool {
    match fs::metadata(rt, OUTPUT) {
        Ok(known) => known.file_type().is_char_device() && is_terminal(known.rdev()),
        Err(_) => false,
    }
}
