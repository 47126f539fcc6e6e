//! The codes that a text needs, and those that a list names, written to the caller's room.
ghost use Rattle.std.specs.Prelude.{◌≡◌, IfErr, IfOk, MatchResult, chars, length};
ghost use Rattle.codes.specs.Wanted.{member};
ghost use Rattle.fontcut_c.specs.Answers.{IsInRoom};
ghost use Rattle.fontcut_c.specs.Inside.{IsBadText, RefusesRoom};
ghost use Rattle.fontcut_c.specs.Requests.{codes_of_ranges};
ghost use Rattle.fontcut_c.specs.TextRanges.{AreNeededInRoom, AreRangesInRoom, HaveCharacters, RefusesNeeded, RefusesRanges};

use crate::refusal::Refusal;
use crate::wanted_ranges::wanted_of;
use codes::{CodeRange, Wanted};
use std::alloc::{AllocError, Global};
use std::io;
use std::io::Read;
use wanted_characters::{CodeSet, FileFault, FileKind, add_listed, add_texts};

// Bytes that are read one by one, so that the place of a fault is known.
#[derive(Drop)]
struct ByteByByte<'a> {
    bytes: &'a [u8],
    // How many bytes were read.
    at: usize,
}

impl Read for ByteByByte<'_> {
    fn read(&mut self, out: &mut [u8]) -> io::Result<usize> {
        let (Some(&byte), Some(place)) = (self.bytes.get(self.at), out.first_mut()) else {
            return Ok(0);
        };
        *place = byte;
        self.at = self.at.saturating_add(1);
        Ok(1)
    }
}

// Returns the ranges of a set of codes.
fn ranges_of(alloc: Global, codes: &CodeSet) -> Result<Vec<CodeRange>, AllocError> {
    let mut ranges = Vec::new(alloc);
    for (first, last) in codes.ranges(alloc)? {
        ranges.push(CodeRange { first, last })?;
    }
    Ok(ranges)
}

// Writes ranges to the front of room, and returns how many they are.
fn put_ranges(ranges: &[CodeRange], out: &mut [CodeRange]) -> Result<u64, Refusal>
    ensures { MatchResult result (IsInRoom ranges.now out.old out.new)
        (λ refusal. (out.new ≡ out.old) × RefusesRoom (length ranges.now) (length out.old) refusal) }
{
    if out.len() < ranges.len() {
        return Err(Refusal::SmallRoom(ranges.len() as u64));
    }
    out[..ranges.len()].copy_from_slice(ranges);
    Ok(ranges.len() as u64)
}

// Returns the characters of a text, and those that it needs beside them.
fn needed_by(alloc: Global, text: &str) -> Result<CodeSet, AllocError> {
    let mut codes = CodeSet::new(alloc);
    for letter in text.chars() {
        codes.add(letter as u32)?;
    }
    add_texts(alloc, &mut codes, &[text])?;
    Ok(codes)
}

// Adds each character of a text to ranges that lack it. What a text needs has all of them, so this adds none: that is not
// proved of `CodeSet`, and after this it need not be.
fn add_characters(
    wanted: &Wanted,
    text: &str,
    ranges: &mut Vec<CodeRange>,
) -> Result<(), AllocError>
    requires { member wanted.now ≡ codes_of_ranges ranges.old.items }
    ensures { IfOk result (λ _. HaveCharacters ranges.new.items (chars text.now)) }
{
    for letter in text.chars() {
        let code = letter as u32;
        if !wanted.contains(code) {
            ranges.push(CodeRange {
                first: code,
                last: code,
            })?;
        }
    }
    Ok(())
}

// Returns the ranges of the characters of a text and of those that it needs beside them.
fn needed_ranges(alloc: Global, text: &str) -> Result<Vec<CodeRange>, AllocError>
    ensures { IfOk result (λ ranges. HaveCharacters ranges.items (chars text.now)) }
{
    let mut ranges = ranges_of(alloc, &needed_by(alloc, text)?)?;
    let wanted = wanted_of(alloc, &ranges).map_err(|_| AllocError)?;
    add_characters(&wanted, text, &mut ranges)?;
    Ok(ranges)
}

/// Writes the characters of a text, and those that it needs beside them, to the front of room, as ascending ranges that
/// do not touch, and returns how many they are.
pub(crate) fn needed_to(alloc: Global, text: &[u8], out: &mut [CodeRange]) -> Result<u64, Refusal>
    ensures { MatchResult result (AreNeededInRoom text.now out.old out.new)
        (λ refusal. (out.new ≡ out.old) × RefusesNeeded text.now (length out.old) refusal) }
{
    let text = match str::from_utf8(text) {
        Ok(text) => text,
        Err(error) => return Err(Refusal::BadText(error.valid_up_to())),
    };
    let ranges = needed_ranges(alloc, text)?;
    put_ranges(&ranges, out)
}

// Returns how many bytes stand before the first that is not UTF-8.
fn valid_length(bytes: &[u8]) -> usize {
    match str::from_utf8(bytes) {
        Ok(text) => text.len(),
        Err(error) => error.valid_up_to(),
    }
}

// Returns where a word begins that names no range, of which and of what may follow it so many bytes were read.
fn place_of(bytes: &[u8], read: usize, word: &str) -> usize {
    let last = read.saturating_sub(word.len());
    // At most one character was read after it. A word holds nothing of what stands before it, so that the first place
    // where it fits is its own.
    for ahead in 0..=4 {
        let at = last.saturating_sub(4 - ahead);
        let end = at.saturating_add(word.len());
        if bytes.get(at..end) == Some(word.as_bytes()) {
            return at;
        }
    }
    last
}

// Returns the codes that the words of a list name.
fn listed(alloc: Global, list: &[u8]) -> Result<CodeSet, Refusal>
    ensures { IfErr result IsBadText }
{
    let mut codes = CodeSet::new(alloc);
    let mut bytes = ByteByByte { bytes: list, at: 0 };
    match add_listed(alloc, &mut bytes, FileKind::Words, &mut codes) {
        Ok(()) => Ok(codes),
        Err(FileFault::BadLine { word, .. }) => match word {
            Some(word) => Err(Refusal::BadText(place_of(list, bytes.at, word.as_str()))),
            None => Err(Refusal::BadText(valid_length(list))),
        },
        Err(_) => Err(Refusal::NoMemory),
    }
}

/// Writes the codes that the words of a list name to the front of room, as ascending ranges that do not touch, and
/// returns how many they are.
pub(crate) fn listed_to(alloc: Global, list: &[u8], out: &mut [CodeRange]) -> Result<u64, Refusal>
    ensures { MatchResult result (AreRangesInRoom out.old out.new)
        (λ refusal. (out.new ≡ out.old) × RefusesRanges (length out.old) refusal) }
{
    let ranges = ranges_of(alloc, &listed(alloc, list)?)?;
    put_ranges(&ranges, out)
}
