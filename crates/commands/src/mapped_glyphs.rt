//! `codes --glyphs`: each mapped code of a font with its glyph and the advance width of that. OpenType 1.9,
//! `cmap` and `hmtx`.
ghost use Rattle.std.specs.Prelude.{◌≡◌, ◌+◌, ℕ, [], Err, IfErr, IfOk, MatchOption, None, OnOk, Some, string_bytes, true};
ghost use Rattle.sfnt_bytes.specs.Memory.{IsRefused};
ghost use Rattle.codes.specs.CharacterMap.{IsCharacterMap, is_mapped};
ghost use Rattle.codes.specs.Wanted.{IsBadRange};
ghost use Rattle.codes.specs.Word.{IsWord, code_word};
ghost use Rattle.font_file.specs.Font.{font_fault, map_of};
ghost use Rattle.streams.specs.Inlet.{inlet_fresh_of};
ghost use Rattle.streams.specs.Outlet.{IsFlushed, fresh_of};
ghost use Rattle.commands.specs.MappedGlyphs.{glyph_line, glyph_text, glyphs_text, mapped_from};
ghost use Rattle.commands.specs.Places.{IsCodePlace, IsPlaceFrom};
ghost use Rattle.commands.specs.Inside.{RefusesText};
ghost use Rattle.commands.specs.Run.{IsAcceptedFont, RefusesFont, SendsText};

use crate::run_error::{RunError, send};
use crate::text_memory::TextMemory;
use codes::Run;
use font_file::Font;
use font_map::Chart;
use std::alloc::{Allocator, Global};
use std::fmt;
use std::io::Read;
use std::marker::Model;
use streams::{Flushes, Inlet, Outlet};

// A code, its glyph, and how far that advances, which are printed as a line.
#[derive(Clone, Copy)]
struct GlyphLine {
    code: u32,
    glyph: u16,
    advance: u16,
}

impl fmt::Display for GlyphLine {
    ghost output = { λ line. Some (glyph_text line.code line.glyph line.advance) };

    fn fmt<W: fmt::Write>(&self, f: &mut fmt::Formatter<W>) -> fmt::Result {
        let (code, glyph, advance) = (self.code, self.glyph, self.advance);
        write!(f, "U+{code:X} {glyph} {advance}\n")
    }
}

// Where a walk over the mapped codes stands: at a code of a run.
#[derive(Clone, Copy)]
struct Place {
    run: Run,
    code: u32,
}

// A font, and the chart of its mapping, which is quick to walk in whatever order its subtable stands.
#[derive(Drop)]
struct Glyphs<'a, A: Allocator = Global> {
    font: &'a Font<'a>,
    chart: Chart<'a, A>,
}

impl<'a, A: Allocator> Model for Glyphs<'a, A> {
    ghost use Rattle.std.specs.Prelude.{◌≡◌, ℕ, List};
    ghost use Rattle.font_file.specs.Font.{cmap_of};
    ghost use Rattle.font_tables.specs.Fields.{glyph_count_of};

    ghost Value = { List ℕ };

    ghost view = { λ g. g.font.now };

    ghost invariant = { λ g. g.chart ≡ (cmap_of g.font.now, glyph_count_of g.font.now) };
}

impl<'a, A: Allocator> Glyphs<'a, A> {
    // Returns the place of the least mapped code that is not below `from`.
    fn place_from(&self, from: u32) -> Option<Place>
        ensures { MatchOption result (mapped_from (map_of self.now) from ≡ [])
            (IsPlaceFrom (map_of self.now) from) }
    {
        let run = self.chart.next_run(from)?;
        Some(Place {
            run,
            code: run.first,
        })
    }

    // Returns the place of the next mapped code.
    fn place_after(&self, place: Place) -> Option<Place>
        requires { IsCodePlace (map_of self.now) place }
        ensures { MatchOption result (mapped_from (map_of self.now) (place.code + 1) ≡ [])
            (IsPlaceFrom (map_of self.now) (place.code + 1)) }
    {
        if place.code < place.run.last {
            return Some(Place {
                run: place.run,
                code: place.code + 1,
            });
        }
        self.place_from(place.code + 1)
    }

    // Returns the line of a place.
    fn line(&self, place: Place) -> GlyphLine
        requires { IsCodePlace (map_of self.now) place }
        ensures { glyph_text result.code result.glyph result.advance ≡ glyph_line self.now place.code }
    {
        let glyph = place.run.glyph + (place.code - place.run.first) as u16;
        let (advance, _bearing) = self.font.metric(glyph);
        GlyphLine {
            code: place.code,
            glyph,
            advance,
        }
    }
}

// A line for each mapped code.
impl<'a, A: Allocator> fmt::Display for Glyphs<'a, A> {
    ghost output = { λ glyphs. Some (glyphs_text glyphs) };

    fn fmt<W: fmt::Write>(&self, f: &mut fmt::Formatter<W>) -> fmt::Result {
        let mut place = self.place_from(0);
        while let Some(here) = place {
            let line = self.line(here);
            write!(f, "{line}")?;
            place = self.place_after(here);
        }
        Ok(())
    }
}

// Returns the lines of the codes that a font maps. It borrows the file, which its caller owns, as `codes_of_file` does.
fn glyphs_of_file<A: TextMemory + Copy>(alloc: A, file: &[u8]) -> Result<String<A>, RunError>
    ensures accepted { OnOk result (font_fault file.now ≡ None) }
    ensures text { IfOk result (λ text. string_bytes text ≡ glyphs_text file.now) }
    ensures error { IfErr result (RefusesText file.now) }
    ensures memory { result ≡ Err RunError.Memory → IsRefused A.refuses }
{
    let font = Font::open(file)?;
    let chart = Chart::of(alloc, font.mapping())?;
    let glyphs = Glyphs { font: &font, chart };
    Ok(alloc.text_of(&glyphs)?)
}

/// Reads a font to its end, and sends a line for each code that it maps, ascending: the code, the number of
/// its glyph, and the advance width of that in font units, as `U+41 36 1401`.
///
/// # Errors
/// `Read` where the reader fails, `Memory` if out of memory, `Font` where the font is refused: then
/// nothing was sent. `Write` where the writer fails.
pub fn run_glyphs<R: Read, W: Flushes, A: TextMemory + Copy>(
    alloc: A,
    inlet: &mut Inlet<R>,
    outlet: &mut Outlet<W>,
) -> Result<(), RunError>
    requires inlet { inlet_fresh_of inlet.old ≡ true }
    requires outlet { fresh_of outlet.old ≡ true }
    ensures sent { SendsText R.remaining W.contents IsAcceptedFont glyphs_text
        (RefusesFont R.remaining inlet.old)
        inlet.old inlet.new outlet.old outlet.new result }
    ensures flushed { OnOk result (IsFlushed W.held outlet.new) }
    ensures memory { result ≡ Err RunError.Memory → IsRefused A.refuses }
{
    let file = inlet.read_all(alloc)?;
    let text = glyphs_of_file(alloc, &file)?;
    Ok(send(outlet, text.as_bytes())?)
}

/// The first word of each line that [`run_glyphs`] sends is one that is read back as its code alone.
pub fn glyphs_law()
    ensures { (m : ℕ → ℕ) → IsCharacterMap m → (code : ℕ) → is_mapped m code ≡ true
        → IsWord (code_word code) code code × (IsBadRange code code → ⊥) }
{}
