//! `show`: what a person asks of a font, and what a cut of it keeps and drops.
ghost use Rattle.std.specs.Prelude.{◌≡◌, ◌<◌, Err, None, Some, IfErr, IfOk, OnErr, OnOk, string_bytes, true};
ghost use Rattle.sfnt_bytes.specs.Memory.{IsRefused};
ghost use Rattle.sfnt_bytes.specs.declared.tag.TheConstants.{SLOTS};
ghost use Rattle.font_file.specs.Font.{cmap_of, font_fault};
ghost use Rattle.font_tables.specs.Fields.{glyph_count_of};
ghost use Rattle.codes.specs.CharacterMap.{mapped_codes};
ghost use Rattle.font_map.specs.Mapping.{mapping_of};
ghost use Rattle.streams.specs.Inlet.{inlet_fresh_of};
ghost use Rattle.streams.specs.Outlet.{IsFlushed, fresh_of};
ghost use Rattle.commands.specs.Inside.{RefusesText};
ghost use Rattle.commands.specs.Run.{IsAcceptedFont, RefusesFont, SendsText};
ghost use Rattle.commands.specs.Show.{cut_text, dropped_line, dropped_text, font_text, kept_line, kept_table_line, kept_text, mapped_text, numbers_text, show_text};

use crate::run_error::{RunError, send};
use crate::text_memory::TextMemory;
use font_file::Font;
use font_map::{Chart, Mapping};
use font_subset::{CutForm, cut_form};
use font_tables::{LocaForm, Tables};
use sfnt_bytes::{Directory, Entry, KEPT, Memory, NoMemory, SLOTS, Tag};
use std::fmt;
use std::io::Read;
use streams::{Flushes, Inlet, Outlet};

// The line of a kept table, where there is one.
#[derive(Clone, Copy)]
struct KeptLine<'a> {
    tag: Tag,
    table: Option<&'a [u8]>,
}

impl<'a> KeptLine<'a> {
    #[tactic(auto, unfolding(sfnt_bytes::specs::Directory::kept_tag))]
    fn of(directory: &Directory<'a>, slot: usize) -> KeptLine<'a>
        requires { slot < SLOTS }
        ensures { kept_table_line result ≡ kept_line directory.now slot }
    {
        KeptLine {
            tag: KEPT[slot],
            table: directory.table(slot),
        }
    }
}

impl<'a> fmt::Display for KeptLine<'a> {
    ghost output = { λ line. Some (kept_table_line line) };

    fn fmt<W: fmt::Write>(&self, f: &mut fmt::Formatter<W>) -> fmt::Result {
        match self.table {
            Some(table) => {
                let (tag, length) = (self.tag, table.len());
                write!(f, "kept {tag} {length}\n")
            }
            None => Ok(()),
        }
    }
}

// A line for each table that a cut keeps, in order of tag.
#[derive(Clone, Copy)]
struct Kept<'a>(&'a Directory<'a>);

impl<'a> fmt::Display for Kept<'a> {
    ghost output = { λ kept. Some (kept_text kept.0.now) };

    fn fmt<W: fmt::Write>(&self, f: &mut fmt::Formatter<W>) -> fmt::Result {
        for slot in 0..SLOTS {
            let line = KeptLine::of(self.0, slot);
            write!(f, "{line}")?;
        }
        Ok(())
    }
}

// The line of a dropped table.
#[derive(Clone, Copy)]
struct DroppedLine(Entry);

impl fmt::Display for DroppedLine {
    ghost output = { λ line. Some (dropped_line line.0) };

    fn fmt<W: fmt::Write>(&self, f: &mut fmt::Formatter<W>) -> fmt::Result {
        let (tag, length) = (self.0.tag, self.0.length);
        write!(f, "dropped {tag} {length}\n")
    }
}

// A line for each table that a cut drops, in the order of the file.
#[derive(Clone, Copy)]
struct Dropped<'a>(&'a Directory<'a>);

impl<'a> fmt::Display for Dropped<'a> {
    ghost output = { λ dropped. Some (dropped_text dropped.0.now) };

    fn fmt<W: fmt::Write>(&self, f: &mut fmt::Formatter<W>) -> fmt::Result {
        for entry in self.0.dropped() {
            let line = DroppedLine(entry);
            write!(f, "{line}")?;
        }
        Ok(())
    }
}

// The lines of what the tables say.
#[derive(Clone, Copy)]
struct Numbers<'a>(&'a Tables<'a>);

impl<'a> fmt::Display for Numbers<'a> {
    ghost output = { λ numbers. Some (numbers_text numbers.0.now) };

    fn fmt<W: fmt::Write>(&self, f: &mut fmt::Formatter<W>) -> fmt::Result {
        let tables = self.0;
        let (glyphs, units) = (tables.glyph_count(), tables.units_per_em());
        let metrics = tables.metric_count();
        let form = match tables.loca_format() {
            LocaForm::Short => "short",
            LocaForm::Long => "long",
        };
        write!(
            f,
            "glyphs {glyphs}\nunits {units}\nloca {form}\nmetrics {metrics}\n"
        )
    }
}

// The lines of the mapping, of which it is known how many codes it maps.
#[derive(Clone, Copy)]
struct Mapped<'a> {
    mapping: &'a Mapping<'a>,
    count: u32,
}

impl<'a> fmt::Display for Mapped<'a> {
    ghost output = { λ mapped. Some (mapped_text mapped.mapping.now.0 mapped.count) };

    fn fmt<W: fmt::Write>(&self, f: &mut fmt::Formatter<W>) -> fmt::Result {
        let (platform, encoding, format) = self.mapping.chosen();
        let mapped = self.count;
        write!(
            f,
            "mapping {platform}/{encoding} format {format}\nmapped {mapped}\n"
        )
    }
}

// The line that says whether a font is a cut.
#[derive(Clone, Copy)]
struct CutLine(CutForm);

impl fmt::Display for CutLine {
    ghost output = { λ line. Some (cut_text line.0) };

    fn fmt<W: fmt::Write>(&self, f: &mut fmt::Formatter<W>) -> fmt::Result {
        let answer = match self.0 {
            CutForm::Current => "yes",
            CutForm::Old => "old",
            CutForm::Not => "no",
        };
        write!(f, "cut {answer}\n")
    }
}

// Counts the codes that a font maps, by a chart, so that no order of its subtable is slow.
fn count_mapped<A: Memory + Copy>(alloc: A, font: &Font<'_>) -> Result<u32, NoMemory>
    ensures count { IfOk result (λ count. count ≡ mapped_codes
        (mapping_of (cmap_of font.now) (glyph_count_of font.now))) }
    ensures memory { OnErr result (IsRefused A.refuses) }
{
    let chart = Chart::of(alloc, font.mapping())?;
    Ok(chart.mapped_count())
}

// The lines of a font, of which it is known how many codes it maps and in which form it is a cut.
#[derive(Clone, Copy)]
struct Shown<'a> {
    font: &'a Font<'a>,
    mapped: u32,
    form: CutForm,
}

impl<'a> fmt::Display for Shown<'a> {
    ghost output = { λ shown. Some (font_text shown.font.now shown.mapped shown.form) };

    #[tactic(auto, unfolding(crate::specs::Show::font_text))]
    fn fmt<W: fmt::Write>(&self, f: &mut fmt::Formatter<W>) -> fmt::Result {
        let tables = self.font.tables();
        let numbers = Numbers(tables);
        let mapped = Mapped {
            mapping: self.font.mapping(),
            count: self.mapped,
        };
        let directory = tables.directory();
        let (kept, dropped) = (Kept(directory), Dropped(directory));
        let last = CutLine(self.form);
        write!(f, "{numbers}{mapped}{kept}{dropped}{last}")
    }
}

// Returns the lines of a font. It borrows the file, which its caller owns, as `codes_of_file` does.
#[tactic(auto, unfolding(crate::specs::Show::show_text))]
fn shown_file<A: TextMemory + Copy>(alloc: A, file: &[u8]) -> Result<String<A>, RunError>
    ensures accepted { OnOk result (font_fault file.now ≡ None) }
    ensures text { IfOk result (λ text. string_bytes text ≡ show_text file.now) }
    ensures error { IfErr result (RefusesText file.now) }
    ensures memory { result ≡ Err RunError.Memory → IsRefused A.refuses }
{
    let font = Font::open(file)?;
    let shown = Shown {
        font: &font,
        mapped: count_mapped(alloc, &font)?,
        form: cut_form(alloc, &font)?,
    };
    Ok(alloc.text_of(&shown)?)
}

/// Reads a font to its end, and sends its numbers of glyphs, units and metrics, the form of its
/// `loca`, which subtable its mapping is read from and how many codes that maps, a line for each table
/// that a cut keeps or drops, and whether the font is a cut itself: as it is written now (`yes`), as it was
/// written before (`old`), or not (`no`).
///
/// # Errors
/// `Read` where the reader fails, `Memory` if out of memory, `Font` where the font is refused: then
/// nothing was sent. `Write` where the writer fails.
pub fn run_show<R: Read, W: Flushes, A: TextMemory + Copy>(
    alloc: A,
    inlet: &mut Inlet<R>,
    outlet: &mut Outlet<W>,
) -> Result<(), RunError>
    requires inlet { inlet_fresh_of inlet.old ≡ true }
    requires outlet { fresh_of outlet.old ≡ true }
    ensures sent { SendsText R.remaining W.contents IsAcceptedFont show_text
        (RefusesFont R.remaining inlet.old)
        inlet.old inlet.new outlet.old outlet.new result }
    ensures flushed { OnOk result (IsFlushed W.held outlet.new) }
    ensures memory { result ≡ Err RunError.Memory → IsRefused A.refuses }
{
    let file = inlet.read_all(alloc)?;
    let text = shown_file(alloc, &file)?;
    Ok(send(outlet, text.as_bytes())?)
}
