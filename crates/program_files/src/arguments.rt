//! The arguments that the program is run with. This project's own.
use crate::standard_files::prints_to_terminal;
use std::alloc::{AllocError, Global};
use std::rt::Env;
use std::{env, io};

// Linux passes no longer argument on.
const LONGEST: usize = 128 * 1024;

// What a line without words stands for: help for a person, and otherwise the stored run.
fn word_of_none(rt: &HostRuntime) -> &'static str {
    if prints_to_terminal(rt) {
        "--help"
    } else {
        "demo"
    }
}

/// Returns the words after the program's own name. Where there is none it is `--help` where standard output is a terminal,
/// and `demo` otherwise.
///
/// # Errors
/// That of the system where a word is not UTF-8, and `OutOfMemory` if out of memory.
pub fn words_of_line(rt: &HostRuntime, alloc: Global) -> io::Result<Vec<String>> {
    let mut words: Vec<String> = env::args(rt)?.collect(alloc)?;
    if !words.is_empty() {
        words.remove(0);
    }
    if words.is_empty() {
        words.push(String::from_str(alloc, word_of_none(rt))?)?;
    }
    Ok(words)
}

// Returns this number of zeros. The prover is slow where their number is written out.
fn zeros(alloc: Global, count: usize) -> Result<Vec<u8>, AllocError> {
    vec![in alloc; 0; count]
}

/// Returns the number of the first argument that is not UTF-8, counted from 1 after the program's name,
/// where `--verbose` stands before it and memory is not refused.
pub fn unreadable_argument(rt: &impl Env, alloc: Global) -> Option<usize> {
    // An array on the stack would be touched at the start of each run.
    let mut bytes = zeros(alloc, LONGEST).ok()?;
    let mut is_verbose = false;
    for i in 1..usize::MAX {
        let Ok(length) = rt.arg(i, &mut bytes) else {
            return None;
        };
        match str::from_utf8(&bytes[..length]) {
            Ok(word) => is_verbose = is_verbose || word == "--verbose",
            Err(_) if is_verbose => return Some(i),
            Err(_) => return None,
        }
    }
    None
}
