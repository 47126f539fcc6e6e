//! The ranges of the codes that a font maps, counted, and written to the caller's room.
ghost use Rattle.std.specs.Prelude.{◌≡◌, ◌≤◌, ◌++◌, MatchResult, drop, length};
ghost use Rattle.font_map.specs.Mapping.{mapping_of};
ghost use Rattle.commands.specs.Codes.{code_ranges};
ghost use Rattle.fontcut_c.specs.Mapped.{IsListInRoom, RefusesList};

use crate::refusal::Refusal;
use codes::CodeRange;
use commands::next_range;
use font_file::Font;
use font_map::Chart;
use std::alloc::Global;

// Counts the ranges.
#[tactic(auto, using(crate::proofs::MappedLemmas::counted_more, crate::proofs::MappedLemmas::counted_all))]
fn count_ranges(chart: &Chart<'_>) -> usize
    ensures { result ≡ length (code_ranges (mapping_of chart.now.0 chart.now.1) 0) }
{
    let (mut count, mut from) = (0, 0);
    while let Some(range) = next_range(chart, from) {
        count += 1;
        from = range.last + 1;
    }
    count
}

// Writes the ranges to the front of room that has one place for each at least.
#[tactic(auto, using(crate::proofs::MappedLemmas::put_more, crate::proofs::MappedLemmas::put_all, crate::proofs::MappedLemmas::below_count))]
fn put_ranges(chart: &Chart<'_>, out: &mut [CodeRange])
    requires { length (code_ranges (mapping_of chart.now.0 chart.now.1) 0) ≤ length out.old }
    ensures { out.new ≡ code_ranges (mapping_of chart.now.0 chart.now.1) 0
        ++ drop (length (code_ranges (mapping_of chart.now.0 chart.now.1) 0)) out.old }
{
    let (mut at, mut from) = (0, 0);
    while let Some(range) = next_range(chart, from) {
        out[at] = range;
        at += 1;
        from = range.last + 1;
    }
}

/// Writes the ranges of the codes that a font maps to the front of room, and returns how many.
pub(crate) fn codes_to(alloc: Global, file: &[u8], out: &mut [CodeRange]) -> Result<u64, Refusal>
    ensures { MatchResult result (IsListInRoom file.now out.old out.new)
        (λ refusal. (out.new ≡ out.old) × RefusesList file.now (length out.old) refusal) }
{
    let font = Font::open(file)?;
    let chart = Chart::of(alloc, font.mapping())?;
    let count = count_ranges(&chart);
    if out.len() < count {
        return Err(Refusal::SmallRoom(count as u64));
    }
    put_ranges(&chart, out);
    Ok(count as u64)
}
