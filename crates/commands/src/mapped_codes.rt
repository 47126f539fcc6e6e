//! `codes`: the mapped codes of a font, as words that `subset` reads.
ghost use Rattle.std.specs.Prelude.{◌≡◌, ◌+◌, ◌≤◌, ◌∷◌, ℕ, [], Err, IfErr, IfOk, MatchOption, None, OnOk, Some, string_bytes, true};
ghost use Rattle.sfnt_bytes.specs.Memory.{IsRefused};
ghost use Rattle.codes.specs.CharacterMap.{IsCharacterMap};
ghost use Rattle.codes.specs.declared.code_points.TheConstants.{LAST_CODE};
ghost use Rattle.font_map.specs.Mapping.{mapping_of};
ghost use Rattle.streams.specs.Outlet.{IsFlushed, fresh_of};
ghost use Rattle.commands.specs.Codes.{CodesLaws, code_lines, code_ranges, codes_text};
ghost use Rattle.streams.specs.Inlet.{inlet_fresh_of};
ghost use Rattle.commands.specs.Inside.{RefusesText};
ghost use Rattle.font_file.specs.Font.{font_fault};
ghost use Rattle.commands.specs.Run.{IsAcceptedFont, RefusesFont, SendsText};

use crate::run_error::{RunError, send};
use crate::text_memory::TextMemory;
use codes::CodeRange;
use font_file::Font;
use font_map::Chart;
use std::alloc::{Allocator, Global};
use std::fmt;
use std::io::Read;
use streams::{Flushes, Inlet, Outlet};

// The mapped codes of a font, by the chart of its mapping, which is quick to walk in whatever order its
// subtable stands.
#[derive(Drop)]
struct Codes<'a, A: Allocator = Global>(Chart<'a, A>);

/// Returns the range of mapped codes that begins at the least one not below `from`, and ends where the next
/// code is not mapped.
pub fn next_range<A: Allocator>(chart: &Chart<'_, A>, from: u32) -> Option<CodeRange>
    ensures range { MatchOption result
        (code_ranges (mapping_of chart.now.0 chart.now.1) from ≡ [])
        (λ range. code_ranges (mapping_of chart.now.0 chart.now.1) from
        ≡ range ∷ code_ranges (mapping_of chart.now.0 chart.now.1) (range.last + 1)) }
    ensures on { MatchOption result (Unit {0}) (λ range. (from ≤ range.last) × (range.last ≤ LAST_CODE)) }
{
    let run = chart.next_run(from)?;
    let mut range = CodeRange {
        first: run.first,
        last: run.last,
    };
    while let Some(next) = chart.next_run(range.last + 1) {
        if next.first != range.last + 1 {
            break;
        }
        range.last = next.last;
    }
    Some(range)
}

// A line for each range.
impl<'a, A: Allocator> fmt::Display for Codes<'a, A> {
    ghost output = { λ codes. Some (code_lines (mapping_of codes.0.0 codes.0.1)) };

    #[tactic(auto, unfolding(crate::specs::Codes::code_lines))]
    fn fmt<W: fmt::Write>(&self, f: &mut fmt::Formatter<W>) -> fmt::Result {
        let mut from = 0;
        while let Some(range) = next_range(&self.0, from) {
            write!(f, "{range}\n")?;
            from = range.last + 1;
        }
        Ok(())
    }
}

// Returns the lines of the codes that a font maps. It borrows the file, because at each `?` it is proved anew that all that
// a function owns can be let go.
#[tactic(auto, unfolding(crate::specs::Codes::codes_text))]
fn codes_of_file<A: TextMemory + Copy>(alloc: A, file: &[u8]) -> Result<String<A>, RunError>
    ensures accepted { OnOk result (font_fault file.now ≡ None) }
    ensures text { IfOk result (λ text. string_bytes text ≡ codes_text file.now) }
    ensures error { IfErr result (RefusesText file.now) }
    ensures memory { result ≡ Err RunError.Memory → IsRefused A.refuses }
{
    let font = Font::open(file)?;
    let codes = Codes(Chart::of(alloc, font.mapping())?);
    Ok(alloc.text_of(&codes)?)
}

/// Reads a font to its end, and sends the codes that it maps, ascending: each range of them, as long as it
/// can be, is a line, `U+41` or `U+41-5A`.
///
/// # Errors
/// `Read` where the reader fails, `Memory` if out of memory, `Font` where the font is refused: then
/// nothing was sent. `Write` where the writer fails.
pub fn run_codes<R: Read, W: Flushes, A: TextMemory + Copy>(
    alloc: A,
    inlet: &mut Inlet<R>,
    outlet: &mut Outlet<W>,
) -> Result<(), RunError>
    requires inlet { inlet_fresh_of inlet.old ≡ true }
    requires outlet { fresh_of outlet.old ≡ true }
    ensures sent { SendsText R.remaining W.contents IsAcceptedFont codes_text
        (RefusesFont R.remaining inlet.old)
        inlet.old inlet.new outlet.old outlet.new result }
    ensures flushed { OnOk result (IsFlushed W.held outlet.new) }
    ensures memory { result ≡ Err RunError.Memory → IsRefused A.refuses }
{
    let file = inlet.read_all(alloc)?;
    let text = codes_of_file(alloc, &file)?;
    Ok(send(outlet, text.as_bytes())?)
}

/// The ranges that [`run_codes`] sends have the mapped codes and no others, no two of them could be one, and
/// each line is a word that is read back as its range.
pub fn codes_laws()
    ensures { (m : ℕ → ℕ) → IsCharacterMap m → CodesLaws m }
{}
