//! The command `slice`: cuts of one font for several sets of characters and glyphs, each in a file of its own.
ghost use Rattle.std.specs.Prelude.{◌≡◌, true};
ghost use Rattle.streams.specs.Outlet.{fresh_of};

use crate::asked::dropped_tables::without_named;
use crate::asked::glyph_numbers::first_past;
use crate::asked::presets::{may_be_preset, preset_source};
use crate::asked::slice_list::{Slice, read_lines, slices_of};
use crate::messages::command_error::{CommandError, no_memory};
use crate::outcome::{Outcome, print};
use crate::paths::inputs::{font_in, input_name, read_whole, source};
use crate::paths::kept_font::keep_from_slices;
use crate::paths::output::{before_packed, outlet, placed};
use codes::Wanted;
use command_line::Slices;
use commands::RunError;
use font_coverage::{Asked, WantedSequences, losses, mapped_codes};
use font_file::Font;
use font_subset::{FontToCut, cut_of_kind_into, keeps_layout};
use font_texts::{Shown, ShownWord, add_rule};
use font_theory::Kind;
use program_files::{HeldFiles, System};
use std::alloc::{AllocError, Global};
use std::fs;
use std::io::{ErrorKind, Read, Write};
use streams::{Flushes, Outlet};
use wanted_characters::{CodeSet, numbers_of};

// What is said first where a strict line is not done.
const UNWRITTEN: &str = "fontcut: nothing was written: the font maps no character of some slices\n";

// Writes the cut of a font for the wanted codes and glyphs to the file at a path.
fn write_cut<'p, F: HeldFiles, I, O: Write + Copy + Drop>(
    system: &System<'_, F, I, O>,
    font: &FontToCut<'_, '_>,
    wanted: &Wanted,
    glyphs: &[u16],
    path: &'p str,
) -> Result<(), CommandError<'p>> {
    let mut outlet = outlet(system, path)?;
    let sent = cut_of_kind_into(system.alloc, font, Some(wanted), Some(glyphs), &mut outlet);
    sent.map_err(|error| CommandError::of_run(path, path, RunError::from(error)))?;
    if outlet.finish().is_err() {
        return Err(CommandError::Unwritten(path));
    }
    placed(system, outlet, path)
}

// Returns a text of its own for the error of a file in a folder.
fn error_in_folder<'a>(alloc: Global, path: &str, error: CommandError<'_>) -> CommandError<'a> {
    match error {
        CommandError::Refused(error) => CommandError::Refused(error),
        _ => match String::from_str(alloc, path) {
            Ok(path) => CommandError::UnwrittenIn { path },
            Err(_) => no_memory(),
        },
    }
}

// Returns the path of the file of a slice.
fn slice_path(alloc: Global, folder: &str, name: &str) -> Result<String, AllocError> {
    format!(in alloc; "{folder}/{name}.ttf")
}

// Writes the file of a slice.
fn write_slice<'a, F: HeldFiles, I, O: Write + Copy + Drop>(
    system: &System<'a, F, I, O>,
    line: &Slices<'a>,
    font: &FontToCut<'_, '_>,
    slice: Slice<'_>,
) -> Result<(), CommandError<'a>> {
    let alloc = system.alloc;
    let (name, codes, glyphs) = slice.into_parts();
    let path = slice_path(alloc, line.folder, name)?;
    let numbers = numbers_of(alloc, &glyphs)?;
    let wanted = codes.into_wanted(alloc)?;
    match write_cut(system, font, &wanted, &numbers, path.as_str()) {
        Ok(()) => Ok(()),
        Err(error) => Err(error_in_folder(alloc, path.as_str(), error)),
    }
}

// How many slices are named of which the font maps nothing.
const MOST_NAMED: usize = 8;

// What is said of slices.
struct Said {
    // The rules of a style sheet for them.
    rules: String,
    // A line for each of the first that have no glyph numbers, and of which the font maps nothing.
    unmapped: String,
    // How many there are of these.
    lacking: usize,
}

// Returns those codes of a slice that are among the mapped ones, as ranges.
fn mapped_ranges(
    alloc: Global,
    mapped: &CodeSet,
    slice: &Slice<'_>,
) -> Result<Vec<(u32, u32)>, AllocError> {
    let lacking = slice.codes.without(alloc, mapped)?;
    slice.codes.without(alloc, &lacking)?.ranges(alloc)
}

impl Drop for Said {
    fn drop(self) {
        let Said {
            rules: _rules,
            unmapped: _unmapped,
            lacking: _,
        } = self;
    }
}

impl Said {
    // Adds what is said of a slice.
    fn add(
        &mut self,
        alloc: Global,
        family: Option<&str>,
        mapped: &CodeSet,
        slice: &Slice<'_>,
    ) -> Result<(), AllocError> {
        let ranges = mapped_ranges(alloc, mapped, slice)?;
        if ranges.is_empty() && !slice.glyphs.is_empty() {
            return Ok(());
        }
        if ranges.is_empty() {
            return self.add_unmapped(slice.name);
        }
        match family {
            Some(family) => add_rule(&mut self.rules, family, slice.name, &ranges),
            None => Ok(()),
        }
    }

    // Adds that the font maps nothing of a slice. Only the first are named.
    fn add_unmapped(&mut self, name: &str) -> Result<(), AllocError> {
        if self.lacking < MOST_NAMED {
            let name = ShownWord(name);
            write!(
                self.unmapped,
                "fontcut: slice {name}: the font maps none of its characters\n"
            )?;
        }
        self.lacking = self.lacking.saturating_add(1);
        Ok(())
    }

    // Adds how many such slices are not named.
    fn add_unnamed(&mut self) -> Result<(), AllocError> {
        if self.lacking > MOST_NAMED {
            let more = self.lacking - MOST_NAMED;
            write!(
                self.unmapped,
                "fontcut: other slices of which the font maps nothing: {more}\n"
            )?;
        }
        Ok(())
    }

    // Returns what is said of slices.
    fn of(
        alloc: Global,
        font: &Font<'_>,
        family: Option<&str>,
        slices: &[Slice<'_>],
    ) -> Result<Said, AllocError> {
        let mapped = mapped_codes(alloc, font)?;
        let mut said = Said {
            rules: String::new(alloc),
            unmapped: String::new(alloc),
            lacking: 0,
        };
        for slice in slices {
            said.add(alloc, family, &mapped, slice)?;
        }
        said.add_unnamed()?;
        Ok(said)
    }

    // Adds that the file of slices at a path names none.
    fn add_none(&mut self, path: &str) -> Result<(), AllocError> {
        let name = Shown(input_name(path));
        write!(self.unmapped, "fontcut: {name} names no slice\n")?;
        Ok(())
    }

    // Prints the rules for slices that are written, and returns what else is said of them.
    fn told<W: Flushes>(
        self,
        is_quiet: bool,
        out: &mut Outlet<W>,
    ) -> Result<Outcome, CommandError<'static>>
        requires { fresh_of out.old ≡ true }
    {
        let Said {
            rules,
            unmapped,
            lacking: _,
        } = self;
        let printed = print(out, rules.as_str())?;
        if is_quiet {
            return Ok(printed);
        }
        Ok(Outcome::noting(true, unmapped))
    }

    // Returns what a strict line comes to that writes nothing.
    fn unwritten(self, alloc: Global, is_quiet: bool) -> Result<Outcome, AllocError> {
        let mut text = String::from_str(alloc, UNWRITTEN)?;
        if !is_quiet {
            text.push_str(self.unmapped.as_str())?;
        }
        Ok(Outcome::saying(false, text))
    }
}

// Returns what cuts of a kind drop that the characters of slices need.
fn lost_of(
    alloc: Global,
    kind: Kind,
    line: &Slices<'_>,
    font: &Font<'_>,
    slices: &[Slice<'_>],
) -> Result<String, AllocError> {
    let mut codes = CodeSet::new(alloc);
    for slice in slices {
        codes.add_all(alloc, &slice.codes)?;
    }
    let wanted = codes.into_wanted(alloc)?;
    let no_text = Wanted::new(alloc);
    let asked = Asked {
        name: input_name(line.font),
        kind,
        wanted: &wanted,
        named: &wanted,
        texts: &no_text,
        // A slice may have characters and sequences that the font lacks.
        lacking: &[],
        // Slices of which the font maps nothing are named one by one.
        has_numbers: true,
        says_more: false,
    };
    losses(alloc, font, asked)
}

// Returns the first glyph number of the slices that is no glyph of a font of so many glyphs.
fn first_stray(alloc: Global, count: u16, slices: &[Slice<'_>]) -> Result<Option<u16>, AllocError> {
    for slice in slices {
        if let Some(number) = first_past(alloc, count, &slice.glyphs)? {
            return Ok(Some(number));
        }
    }
    Ok(None)
}

// Makes a folder where there is none.
fn make_folder<'a, F: HeldFiles, I, O>(
    system: &System<'a, F, I, O>,
    path: &'a str,
) -> Result<(), CommandError<'a>> {
    match fs::create_dir(system.files, path) {
        Ok(()) => Ok(()),
        Err(error) if error.kind() == ErrorKind::AlreadyExists => Ok(()),
        Err(error) => {
            system.reason.keep(error);
            Err(CommandError::Unwritten(path))
        }
    }
}

// Writes the files of slices of a font.
fn write_slices<'a, F: HeldFiles, I, O: Write + Copy + Drop>(
    system: &System<'a, F, I, O>,
    line: &Slices<'a>,
    font: &FontToCut<'_, '_>,
    slices: Vec<Slice<'_>>,
) -> Result<(), CommandError<'a>> {
    make_folder(system, line.folder)?;
    for slice in slices {
        write_slice(system, line, font, slice)?;
    }
    Ok(())
}

// Writes the files of slices of an accepted font, once it is opened for cuts of a kind.
fn write_cuts<'a, F: HeldFiles, I, O: Write + Copy + Drop>(
    system: &System<'a, F, I, O>,
    kind: Kind,
    line: &Slices<'a>,
    font: &Font<'_>,
    slices: Vec<Slice<'_>>,
) -> Result<(), CommandError<'a>> {
    match FontToCut::open(system.alloc, kind, keeps_layout(kind), font) {
        Ok(opened) => write_slices(system, line, &opened, slices),
        Err(error) => Err(CommandError::of_run(line.font, line.folder, RunError::from(error))),
    }
}

// Adds the glyphs of the sequences of slices, where cuts of a kind keep sequences.
fn add_variants(
    alloc: Global,
    kind: Kind,
    font: &Font<'_>,
    slices: &mut [Slice<'_>],
) -> Result<(), AllocError> {
    if !keeps_layout(kind) {
        return Ok(());
    }
    for slice in slices {
        let variants = WantedSequences::of(alloc, font, &slice.sequences)?;
        slice.add_glyphs(&variants.glyphs(alloc)?)?;
    }
    Ok(())
}

// Writes the files of slices of an accepted font, and prints the rules for them.
fn slice_font<'a, F: HeldFiles, I, O: Write + Copy + Drop, W: Flushes>(
    system: &System<'a, F, I, O>,
    kind: Kind,
    line: &Slices<'a>,
    font: &Font<'_>,
    mut slices: Vec<Slice<'_>>,
    out: &mut Outlet<W>,
) -> Result<Outcome, CommandError<'a>>
    requires { fresh_of out.old ≡ true }
{
    if let Some(number) = first_stray(system.alloc, font.tables().glyph_count(), &slices)? {
        return Err(CommandError::of_run(line.font, line.folder, RunError::NoGlyph(number)));
    }
    let mut said = Said::of(system.alloc, font, line.family, &slices)?;
    if line.is_strict && !said.unmapped.is_empty() {
        return Ok(said.unwritten(system.alloc, line.is_quiet)?);
    }
    if slices.is_empty() {
        said.add_none(line.slices)?;
    }
    let lost = lost_of(system.alloc, kind, line, font, &slices)?;
    said.unmapped.push_str(lost.as_str())?;
    add_variants(system.alloc, kind, font, &mut slices)?;
    write_cuts(system, kind, line, font, slices)?;
    said.told(line.is_quiet, out)
}

// Writes the files of slices of a font, whose file this is, and prints the rules for them.
fn slice_file<'a, F: HeldFiles, I, O: Write + Copy + Drop, W: Flushes>(
    system: &System<'a, F, I, O>,
    kind: Kind,
    line: &Slices<'a>,
    file: &[u8],
    slices: Vec<Slice<'_>>,
    out: &mut Outlet<W>,
) -> Result<Outcome, CommandError<'a>>
    requires { fresh_of out.old ≡ true }
{
    let font = font_in(line.font, file)?;
    slice_font(system, kind, line, &font, slices, out)
}

// Reads the file of slices of a line, or those of the preset that it names where there is no such file.
fn list_of<'a, F: HeldFiles, I: Read + Copy + Drop, O>(
    system: &System<'a, F, I, O>,
    line: &Slices<'a>,
) -> Result<Vec<u8>, CommandError<'a>> {
    let mut lines = match source(system, line.slices) {
        Ok(lines) => lines,
        Err(CommandError::Unread(name)) if may_be_preset(system, name) => preset_source(
            system, name,
        )?,
        Err(error) => return Err(error),
    };
    read_lines(system.alloc, line.slices, &mut lines)
}

// Returns the paths of the files of slices.
fn paths_of(alloc: Global, folder: &str, slices: &[Slice<'_>]) -> Result<Vec<String>, AllocError> {
    let mut paths = Vec::new(alloc);
    for slice in slices {
        paths.push(slice_path(alloc, folder, slice.name)?)?;
    }
    Ok(paths)
}

// Reads the font of a line, which no slice may replace, and leaves out the tables that the line drops.
fn file_of<'a, F: HeldFiles, I: Read + Copy + Drop, O>(
    system: &System<'a, F, I, O>,
    line: &Slices<'a>,
    slices: &[Slice<'_>],
) -> Result<Vec<u8>, CommandError<'a>> {
    let whole = read_whole(system, line.font)?;
    let paths = paths_of(system.alloc, line.folder, slices)?;
    keep_from_slices(system, line, &whole, &paths)?;
    without_named(system.alloc, line.font, whole, &line.dropped)
}

// Does what a line asks for with the slices of a file, whose lines these are.
fn slice_listed<'a, F: HeldFiles, I: Read + Copy + Drop, O: Write + Copy + Drop, W: Flushes>(
    system: &System<'a, F, I, O>,
    kind: Kind,
    line: &Slices<'a>,
    list: &[u8],
    out: &mut Outlet<W>,
) -> Result<Outcome, CommandError<'a>>
    requires { fresh_of out.old ≡ true }
{
    let slices = slices_of(system.alloc, line.slices, list)?;
    if kind == Kind::Full && slices.iter().any(|slice| !slice.glyphs.is_empty()) {
        return Err(CommandError::NumbersOfFull);
    }
    let file = file_of(system, line, &slices)?;
    slice_file(system, kind, line, &file, slices, out)
}

/// Writes the cut of a font for each slice of a file, and prints the rules of a style sheet for them where these are
/// wanted. The file of slices is read before the font.
///
/// # Errors
/// The first error. The files of the slices before it are written.
pub(crate) fn slice<'a, F: HeldFiles, I: Read + Copy + Drop, O: Write + Copy + Drop, W: Flushes>(
    system: &System<'a, F, I, O>,
    kind: Kind,
    line: &Slices<'a>,
    out: &mut Outlet<W>,
) -> Result<Outcome, CommandError<'a>>
    requires { fresh_of out.old ≡ true }
{
    if before_packed(line.folder).is_some() && !line.is_forced {
        return Err(CommandError::PackedFolder);
    }
    let list = list_of(system, line)?;
    slice_listed(system, kind, line, &list, out)
}
