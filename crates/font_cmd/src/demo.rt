//! `demo`: what is found in the font that the program carries, and what its cuts come to.
use crate::asked::words::codes_of;
use codes::Wanted;
use commands::{RunError, run_join, run_subset};
use font_file::Font;
use sfnt_bytes::{BASE6, Directory};
use std::alloc::{AllocError, Global};
use streams::{Inlet, Outlet};
use wanted_characters::SequenceSet;

// Returns a line for the file, one for each table, and the number of findings.
//
// It stands apart, as the search for findings in `check` does.
#[inline(never)]
fn described(alloc: Global, directory: &Directory<'_>) -> Result<String, AllocError> {
    let size = directory.file().len();
    let mut text = String::new(alloc);
    write!(text, "Base6 {size} bytes\n")?;
    for entry in directory.records() {
        let (tag, offset, length) = (entry.tag, entry.offset, entry.length);
        write!(text, "{tag} {offset} {length}\n")?;
    }
    let count = directory.findings().count();
    write!(text, "findings {count}\n")?;
    Ok(text)
}

// The outlets of `demo` hold what they take in memory, so one that cannot be written is out of memory.
fn in_memory(error: RunError) -> RunError {
    match error {
        RunError::Write(_) => RunError::Memory,
        error => error,
    }
}

// Returns the codes of some words. They name ranges, so only memory can be wanting.
fn wanted_by(alloc: Global, words: &[&str]) -> Result<Wanted, RunError> {
    let Ok(codes) = codes_of(alloc, &mut SequenceSet::new(alloc), words) else {
        return Err(RunError::Memory);
    };
    match codes.into_wanted(alloc) {
        Ok(wanted) => Ok(wanted),
        Err(_) => Err(RunError::Memory),
    }
}

// Adds the line of the cut for the codes of some words, and answers the cut.
fn add_cut(alloc: Global, text: &mut String, words: &[&str]) -> Result<Vec<u8>, RunError> {
    let wanted = wanted_by(alloc, words)?;
    let mut outlet = Outlet::new(Vec::new(alloc));
    let mut inlet = Inlet::new(BASE6.as_slice());
    let size = run_subset(alloc, &mut inlet, &wanted, &mut outlet).map_err(in_memory)?;
    let name = words.first().copied().unwrap_or("none");
    write!(text, "cut {name} {size}\n")?;
    Ok(outlet.into_inner())
}

// Adds the line of the join of two cuts.
fn add_join(alloc: Global, text: &mut String, x: &[u8], y: &[u8]) -> Result<(), RunError> {
    let mut inlets = [Inlet::new(x), Inlet::new(y)];
    let mut outlet = Outlet::new(Vec::new(alloc));
    let size = run_join(alloc, &mut inlets, &mut outlet).map_err(in_memory)?;
    write!(text, "join {size}\n")?;
    Ok(())
}

// Adds the lines of some cuts, and of the join of the first and the last one.
fn add_cuts(alloc: Global, text: &mut String) -> Result<(), RunError> {
    let x = add_cut(alloc, text, &["U+C1"])?;
    add_cut(alloc, text, &[])?;
    add_cut(alloc, text, &["U+20"])?;
    let y = add_cut(alloc, text, &["U+41-42"])?;
    add_join(alloc, text, &x, &y)
}

/// Returns what `demo` prints.
pub(crate) fn demo_text(alloc: Global) -> Result<String, RunError> {
    let font = Font::open(&BASE6)?;
    let mut text = described(alloc, font.tables().directory())?;
    add_cuts(alloc, &mut text)?;
    Ok(text)
}
