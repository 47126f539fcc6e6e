//! Sorted ranges of codes, that neither overlap nor touch.
ghost use Rattle.std.specs.Prelude.{◌≡◌, ◌+◌, ◌<◌, ◌≤◌, ◌++◌, ◌∷◌, length, take, drop, MatchOption, OnErr, OnOk};
ghost use Rattle.sfnt_bytes.specs.Memory.{IsRefused};
ghost use Rattle.codes.specs.Order.{IsFirstReaching};
ghost use Rattle.codes.specs.Inside.{IsPartAbove, IsPartBelow, absorbed, range_end, range_nth, with_range, without_range};
ghost use Rattle.codes.specs.Wanted.{AreSeparate, IsRow, NoRow, member};
ghost use Rattle.codes.specs.declared.code_points.TheConstants.{LAST_CODE};

use crate::code_range::CodeRange;
use crate::search::{ANYWHERE, Ends, first_reaching};
use sfnt_bytes::{Memory, NoMemory};

/// The ends of ranges.
#[derive(Drop)]
struct RangeEnds<'a> {
    ranges: &'a [CodeRange],
}

impl<'a> Ends for RangeEnds<'a> {
    ghost use Rattle.std.specs.Prelude.{length};
    ghost use Rattle.codes.specs.Inside.{range_end};

    ghost count_of = { λ e. length e.ranges.now };

    ghost end_of = { λ e. range_end e.ranges.now };

    fn count(&self) -> usize {
        self.ranges.len()
    }

    fn end_at(&self, i: usize) -> u32 {
        self.ranges[i].last
    }
}

// Returns the place of the first range that ends at the code or above it, which is likely to stand close after
// the hint.
#[tactic(auto, using(crate::proofs::RangeLemmas::ranges_ascend))]
fn find_range(ranges: &[CodeRange], hint: usize, code: u32) -> usize
    requires { AreSeparate 0 ranges.now }
    ensures { IsFirstReaching (range_end ranges.now) (length ranges.now) code result }
{
    first_reaching(&RangeEnds { ranges }, hint, code)
}

/// Returns whether a code is in one of the ranges.
pub(crate) fn has_code(ranges: &[CodeRange], code: u32) -> bool
    requires { AreSeparate 0 ranges.now }
    ensures { result ≡ member ranges.now code }
{
    let i = find_range(ranges, ANYWHERE, code);
    if i >= ranges.len() {
        return false;
    }
    if code < ranges[i].first {
        return false;
    }
    true
}

/// Returns the codes, from `from` on, of the first range that ends at `from` or above it, and the place of that
/// range, as a hint for the next search.
pub(crate) fn row_by_hint(
    ranges: &[CodeRange],
    hint: usize,
    from: u32,
) -> (Option<CodeRange>, usize)
    requires { AreSeparate 0 ranges.now }
    ensures { MatchOption result.0 (NoRow (member ranges.now) from) (IsRow (member ranges.now) from) }
{
    let i = find_range(ranges, hint, from);
    if i >= ranges.len() {
        return (None, i);
    }
    let range = ranges[i];
    let row = CodeRange {
        first: from.max(range.first),
        last: range.last,
    };
    (Some(row), i)
}

// Returns how many ranges end before another one, with a gap.
#[tactic(auto, using(crate::proofs::AddingLemmas::with_range_at))]
fn count_before(ranges: &[CodeRange], range: CodeRange) -> usize
    requires { AreSeparate 0 ranges.now }
    ensures within { result ≤ length ranges.now }
    ensures rest { with_range range ranges.now ≡ take result ranges.now ++ absorbed range
        (drop result ranges.now) }
{
    // Ranges mostly come in order, so the last one is looked at first.
    find_range(
        ranges,
        ranges.len().saturating_sub(1),
        range.first.saturating_sub(1),
    )
}

// Merges `range` with the ranges from index `i` on that overlap or touch it. Returns the union and the
// index after the last one merged.
#[tactic(auto, using(crate::proofs::AddingLemmas::absorbed_on, crate::proofs::AddingLemmas::absorbed_stop, crate::proofs::AddingLemmas::absorbed_end))]
fn absorb(ranges: &[CodeRange], i: usize, range: CodeRange) -> (CodeRange, usize)
    requires { i ≤ length ranges.now }
    ensures order { i ≤ result.1 }
    ensures within { result.1 ≤ length ranges.now }
    ensures rest { absorbed range (drop i ranges.now) ≡ result.0 ∷ drop result.1 ranges.now }
{
    let mut whole = range;
    for j in i..ranges.len() {
        let next = ranges[j];
        if next.first.saturating_sub(1) > whole.last {
            return (whole, j);
        }
        whole = CodeRange {
            first: whole.first.min(next.first),
            last: whole.last.max(next.last),
        };
    }
    (whole, ranges.len())
}

// Puts a range in the place of those from index `i` to `j`. It asks for memory only where these are
// none.
fn replace<A: Memory>(
    ranges: &mut Vec<CodeRange, A>,
    i: usize,
    j: usize,
    range: CodeRange,
) -> Result<(), NoMemory>
    requires order { i ≤ j }
    requires within { j ≤ length ranges.old.items }
    ensures ok { OnOk result (ranges.new.items ≡ take i ranges.old.items ++ range ∷ drop j ranges.old.items) }
    ensures err { OnErr result (ranges.new.items ≡ ranges.old.items) }
    ensures granted { OnErr result (i ≡ j) }
    ensures memory { OnErr result (IsRefused A.refuses) }
{
    if i == j {
        A::more_room_for(ranges, 1)?;
        let Ok(()) = ranges.insert(i, range) else {
            unreachable!()
        };
        return Ok(());
    }
    ranges[i] = range;
    drop(ranges.drain(i + 1..j));
    Ok(())
}

/// Adds a range, in place.
pub(crate) fn add_range<A: Memory>(
    ranges: &mut Vec<CodeRange, A>,
    range: CodeRange,
) -> Result<(), NoMemory>
    requires { AreSeparate 0 ranges.old.items }
    ensures ok { OnOk result (ranges.new.items ≡ with_range range ranges.old.items) }
    ensures err { OnErr result (ranges.new.items ≡ ranges.old.items) }
    ensures memory { OnErr result (IsRefused A.refuses) }
{
    let i = count_before(ranges.as_slice(), range);
    let (whole, j) = absorb(ranges.as_slice(), i, range);
    replace(ranges, i, j, whole)
}

// Puts two ranges in the place of those from index `i` to `j`, which are one at least. It asks for memory before
// anything is changed.
#[tactic(auto, using(crate::proofs::RemovingLemmas::two_in_place))]
fn replace_by_two<A: Memory>(
    ranges: &mut Vec<CodeRange, A>,
    i: usize,
    j: usize,
    below: CodeRange,
    above: CodeRange,
) -> Result<(), NoMemory>
    requires order { i < j }
    requires within { j ≤ length ranges.old.items }
    ensures ok { OnOk result
        (ranges.new.items ≡ take i ranges.old.items ++ below ∷ above ∷ drop j ranges.old.items) }
    ensures err { OnErr result (ranges.new.items ≡ ranges.old.items) }
    ensures memory { OnErr result (IsRefused A.refuses) }
{
    replace(ranges, i, i, below)?;
    replace(ranges, i + 1, j + 1, above)
}

// Returns what of the range at an index lies below another one, where there is such a range.
fn part_below_at(ranges: &[CodeRange], i: usize, range: CodeRange) -> Option<CodeRange>
    ensures { MatchOption result
        (i < length ranges.now → range.first ≤ (range_nth ranges.now i).first)
        (λ below. IsPartBelow ranges.now i range below) }
{
    if i < ranges.len() && ranges[i].first < range.first {
        return Some(CodeRange {
            first: ranges[i].first,
            last: range.first - 1,
        });
    }
    None
}

// Returns what of the range at an index lies above another one, where the two have a code in common.
fn part_above_at(ranges: &[CodeRange], j: usize, range: CodeRange) -> Option<CodeRange>
    requires { range.last ≤ LAST_CODE }
    ensures { MatchOption result
        (j < length ranges.now → range.last < (range_nth ranges.now j).first)
        (λ above. IsPartAbove ranges.now j range above) }
{
    if j < ranges.len() && ranges[j].first <= range.last {
        return Some(CodeRange {
            first: range.last + 1,
            last: ranges[j].last,
        });
    }
    None
}

/// Takes the codes of a range away, in place.
#[tactic(auto, using(crate::proofs::RemovingLemmas::none_left, crate::proofs::RemovingLemmas::below_left, crate::proofs::RemovingLemmas::above_left, crate::proofs::RemovingLemmas::both_left))]
pub(crate) fn remove_range<A: Memory>(
    ranges: &mut Vec<CodeRange, A>,
    range: CodeRange,
) -> Result<(), NoMemory>
    requires separate { AreSeparate 0 ranges.old.items }
    requires order { range.first ≤ range.last }
    requires within { range.last ≤ LAST_CODE }
    ensures ok { OnOk result (ranges.new.items ≡ without_range range ranges.old.items) }
    ensures err { OnErr result (ranges.new.items ≡ ranges.old.items) }
    ensures memory { OnErr result (IsRefused A.refuses) }
{
    let i = find_range(ranges.as_slice(), ANYWHERE, range.first);
    let j = find_range(ranges.as_slice(), i, range.last + 1);
    let below = part_below_at(ranges.as_slice(), i, range);
    let above = part_above_at(ranges.as_slice(), j, range);
    match (below, above) {
        (None, None) => {
            drop(ranges.drain(i..j));
            Ok(())
        }
        (Some(below), None) => replace(ranges, i, j, below),
        (None, Some(above)) => replace(ranges, i, j + 1, above),
        (Some(below), Some(above)) => replace_by_two(ranges, i, j + 1, below, above),
    }
}
