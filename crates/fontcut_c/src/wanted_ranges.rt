//! Ranges of codes, and the set that they want.
ghost use Rattle.std.specs.Prelude.{◌≡◌, ◌<◌, ℕ, MatchOption, IfOk};
ghost use Rattle.std.specs.List.Sorted.{IsPermutation};
ghost use Rattle.codes.specs.Wanted.{member};
ghost use Rattle.fontcut_c.specs.Cutting.{AreGood, IsFirstBad};
ghost use Rattle.fontcut_c.specs.Requests.{codes_of_ranges};

use codes::{CodeRange, LAST_CODE, Wanted};
use sfnt_bytes::NoMemory;
use std::alloc::Global;

/// Finds the first range that ends before it begins, or past the last code point.
pub(crate) fn first_bad(ranges: &[CodeRange]) -> Option<usize>
    ensures { MatchOption result (AreGood ranges.now) (IsFirstBad ranges.now) }
{
    for index in 0..ranges.len() {
        let range = ranges[index];
        if range.last < range.first || LAST_CODE < range.last {
            return Some(index);
        }
    }
    None
}

// Returns the codes of ranges of which none is bad, each added after those before it.
fn added(alloc: Global, ranges: &[CodeRange]) -> Result<Wanted, NoMemory>
    ensures { IfOk result (λ wanted. member wanted ≡ codes_of_ranges ranges.now) }
{
    let mut wanted = Wanted::new(alloc);
    for range in ranges {
        // No range is bad, so memory has run out.
        if wanted.add(range.first, range.last).is_err() {
            return Err(NoMemory);
        }
    }
    Ok(wanted)
}

// Tells whether each range begins where the one before it does, or later.
fn ascends(ranges: &[CodeRange]) -> bool {
    ranges.windows(2).all(|pair| pair[0].first <= pair[1].first)
}

// Returns the ranges in the order in which they begin.
fn sorted(alloc: Global, ranges: &[CodeRange]) -> Result<Vec<CodeRange>, NoMemory>
    ensures { IfOk result (λ sorted. IsPermutation ranges.now sorted.items) }
{
    let mut sorted = Vec::new(alloc);
    if sorted.extend_from_slice(ranges).is_err() {
        return Err(NoMemory);
    }
    sorted.sort_unstable_by_key(|range| range.first);
    Ok(sorted)
}

/// Returns the codes of ranges of which none is bad. They are added in the order in which they begin: a range in front of
/// many others moves all of them.
pub(crate) fn wanted_of(alloc: Global, ranges: &[CodeRange]) -> Result<Wanted, NoMemory>
    ensures { IfOk result (λ wanted. member wanted ≡ codes_of_ranges ranges.now) }
{
    if ascends(ranges) {
        return added(alloc, ranges);
    }
    let sorted = sorted(alloc, ranges)?;
    added(alloc, &sorted)
}
