//! The axes and the named instances of a variable font. OpenType 1.9, fvar; name.
use crate::shown::Shown;
use crate::table_bytes::{number_at, table_named};
use font_file::Font;
use sfnt_bytes::Tag;
use std::alloc::{AllocError, Global};

// The bytes of the record of an axis at least, and those of an instance before its coordinates.
const AXIS: usize = 20;

const INSTANCE: usize = 4;

// The bytes of a coordinate.
const COORDINATE: usize = 4;

// The bytes of a table of names before its records, and those of a record.
const NAMES: usize = 6;

const NAME: usize = 12;

// The platforms whose names are in UTF-16, and the number of English as the second one has it.
const UNICODE: usize = 0;

const WINDOWS: usize = 3;

const ENGLISH: usize = 0x409;

// How many axes are named in one line.
const NAMED: usize = 16;

// What stands for a unit of UTF-16 that is no character.
const NO_CHARACTER: char = '\u{FFFD}';

// How many digits after the point tell each number of 16 bits there from the next one.
const DIGITS: u32 = 5;

// Adds the digits after the point of a number with 16 bits there: as few as tell it from the numbers beside it.
fn add_digits(text: &mut String, fraction: u16) -> Result<(), AllocError> {
    let (mut rest, mut unit) = (u32::from(fraction) * 10 + 5, 10u32);
    for _ in 0..DIGITS {
        if 0x1_0000 < unit {
            // The last digit is rounded.
            rest = rest.saturating_add(0x8000).saturating_sub(50_000);
        }
        let digit = rest / 0x1_0000;
        write!(text, "{digit}")?;
        rest = rest % 0x1_0000 * 10;
        unit = unit.saturating_mul(10);
        if rest <= unit {
            break;
        }
    }
    Ok(())
}

// Adds a number with 16 bits before the point and 16 after it, of which these are the bytes.
fn add_fixed(text: &mut String, bytes: [u8; 4]) -> Result<(), AllocError> {
    let number = i32::from_be_bytes(bytes);
    let size = number.unsigned_abs();
    let (sign, whole) = (if number < 0 { "-" } else { "" }, size / 0x1_0000);
    write!(text, "{sign}{whole}")?;
    let fraction = (size % 0x1_0000) as u16;
    if fraction == 0 {
        return Ok(());
    }
    text.push('.')?;
    add_digits(text, fraction)
}

// Returns the four bytes at a place, or zeros where they are not there.
fn four_at(bytes: &[u8], at: usize) -> [u8; 4] {
    match bytes.get(at..at.saturating_add(4)) {
        Some(four) => [four[0], four[1], four[2], four[3]],
        None => [0, 0, 0, 0],
    }
}

// Adds a character of UTF-16. `high` is the first half of one that goes on.
fn add_unit(text: &mut String, high: Option<u32>, unit: u32) -> Result<(), AllocError> {
    let code = match high {
        Some(high) => 0x1_0000 + (high % 0x400) * 0x400 + unit % 0x400,
        None => unit,
    };
    text.push(char::from_u32(code).unwrap_or(NO_CHARACTER))
}

// Returns the text of a name in UTF-16.
fn text_of(alloc: Global, bytes: &[u8]) -> Result<String, AllocError> {
    let mut text = String::new(alloc);
    let mut high = None;
    for pair in bytes.chunks_exact(2) {
        let unit = number_at(pair, 0) as u32;
        if unit / 0x400 == 0x36 {
            high = Some(unit);
            continue;
        }
        add_unit(&mut text, high.filter(|_| unit / 0x400 == 0x37), unit)?;
        high = None;
    }
    Ok(text)
}

// Returns whether a record of a name is in UTF-16, of English where that is asked for.
fn is_read(record: &[u8], in_english: bool) -> bool {
    let platform = number_at(record, 0);
    if in_english {
        return platform == WINDOWS && number_at(record, 4) == ENGLISH;
    }
    platform == UNICODE || platform == WINDOWS
}

// Returns the bytes of the first name of a number that is read, in a table of names.
fn name_in(names: &[u8], number: usize, in_english: bool) -> Option<&[u8]> {
    let records = names.get(NAMES..)?;
    let storage = names.get(number_at(names, 4)..)?;
    let record = records.chunks_exact(NAME).take(number_at(names, 2)).find(|record| number_at(
        record, 6,
    ) == number
        && is_read(record, in_english))?;
    let (length, offset) = (number_at(record, 8), number_at(record, 10));
    storage.get(offset..offset.saturating_add(length))
}

// Adds a name by its number, where a table of names has it.
fn add_name(
    alloc: Global,
    text: &mut String,
    names: &[u8],
    number: usize,
) -> Result<(), AllocError> {
    let english = name_in(names, number, true);
    let Some(bytes) = english.or_else(|| name_in(names, number, false)) else {
        return Ok(());
    };
    let name = text_of(alloc, bytes)?;
    let shown = Shown(name.as_str());
    write!(text, " {shown}")?;
    Ok(())
}

// The axes and the instances of a table fvar.
#[derive(Clone, Copy)]
struct Axes<'a> {
    // The records of the axes, of this many bytes each, and those of instances after them.
    records: &'a [u8],
    size: usize,
    count: usize,
    instances: &'a [u8],
    instance_size: usize,
    instance_count: usize,
}

impl<'a> Axes<'a> {
    // Returns those of a table, of which records that are too short for what they have are left out.
    fn of(table: &'a [u8]) -> Axes<'a> {
        let (size, count) = (number_at(table, 10), number_at(table, 8));
        let records = table.get(number_at(table, 4)..).unwrap_or(&[]);
        let instance_size = number_at(table, 14);
        let is_long = count.saturating_mul(COORDINATE).saturating_add(INSTANCE) <= instance_size;
        Axes {
            records,
            size,
            count: if size < AXIS { 0 } else { count },
            instances: records.get(count.saturating_mul(size)..).unwrap_or(&[]),
            instance_size,
            instance_count: if is_long { number_at(table, 12) } else { 0 },
        }
    }

    // Returns the record of an axis, where it is there.
    fn axis(&self, k: usize) -> Option<&'a [u8]> {
        let at = k.saturating_mul(self.size);
        self.records.get(at..at.saturating_add(self.size))
    }

    // Returns the record of an instance, where it is there.
    fn instance(&self, k: usize) -> Option<&'a [u8]> {
        let at = k.saturating_mul(self.instance_size);
        self.instances
            .get(at..at.saturating_add(self.instance_size))
    }
}

// Adds the line of an axis: its tag, and its least, default and greatest coordinate.
fn add_axis(text: &mut String, record: &[u8]) -> Result<(), AllocError> {
    let tag = Tag(four_at(record, 0));
    write!(text, "axis {tag}")?;
    for at in [4, 8, 12] {
        text.push(' ')?;
        add_fixed(text, four_at(record, at))?;
    }
    text.push('\n')
}

// Adds the coordinates of an instance, each after the tag of its axis.
fn add_coordinates(text: &mut String, axes: Axes<'_>, record: &[u8]) -> Result<(), AllocError> {
    for k in 0..axes.count {
        let Some(axis) = axes.axis(k) else {
            break;
        };
        let tag = Tag(four_at(axis, 0));
        write!(text, " {tag}=")?;
        let at = k.saturating_mul(COORDINATE).saturating_add(INSTANCE);
        add_fixed(text, four_at(record, at))?;
    }
    Ok(())
}

// Adds a line for each axis.
fn add_axes(text: &mut String, axes: Axes<'_>) -> Result<(), AllocError> {
    for k in 0..axes.count {
        let Some(record) = axes.axis(k) else {
            break;
        };
        add_axis(text, record)?;
    }
    Ok(())
}

// Adds a line for each named instance: its coordinates, and its name where the table of names has it.
fn add_instances(
    alloc: Global,
    text: &mut String,
    axes: Axes<'_>,
    names: &[u8],
) -> Result<(), AllocError> {
    for k in 0..axes.instance_count {
        let Some(record) = axes.instance(k) else {
            break;
        };
        text.push_str("instance")?;
        add_coordinates(text, axes, record)?;
        add_name(alloc, text, names, number_at(record, 0))?;
        text.push('\n')?;
    }
    Ok(())
}

/// Adds a line for each axis of a font and one for each of its named instances, where it varies.
///
/// # Errors
/// `AllocError` if out of memory.
pub fn add_variations(alloc: Global, text: &mut String, font: &Font<'_>) -> Result<(), AllocError> {
    let axes = Axes::of(table_named(font, Tag(*b"fvar")));
    add_axes(text, axes)?;
    add_instances(alloc, text, axes, table_named(font, Tag(*b"name")))
}

/// Returns the tags of the axes of a font, with commas between them, or no text where it does not vary.
///
/// # Errors
/// `AllocError` if out of memory.
pub fn axis_tags(alloc: Global, font: &Font<'_>) -> Result<String, AllocError> {
    let axes = Axes::of(table_named(font, Tag(*b"fvar")));
    let mut text = String::new(alloc);
    let mut between = "";
    for k in 0..axes.count.min(NAMED) {
        let Some(record) = axes.axis(k) else {
            break;
        };
        let tag = Tag(four_at(record, 0));
        write!(text, "{between}{tag}")?;
        between = ", ";
    }
    Ok(text)
}

/// Returns the number of the axes of a font.
pub fn axis_count(font: &Font<'_>) -> u32 {
    let axes = Axes::of(table_named(font, Tag(*b"fvar")));
    let mut count: u32 = 0;
    for k in 0..axes.count {
        if axes.axis(k).is_none() {
            break;
        }
        count = count.saturating_add(1);
    }
    count
}
