//! What is said of the characters of texts that a font does not map. This project's own.
use codes::{CODES, CodeRange, Wanted};
use font_file::Font;
use font_map::Chart;
use font_texts::{Shown, shown_character};
use std::alloc::{AllocError, Global};

// How many characters are named.
const NAMED: usize = 5;

// The codes that nobody misses, since no glyph stands for them: control characters, spaces (White_Space) and those that
// are ignored by default (Default_Ignorable_Code_Point), selectors of variations among them. Unicode, UnicodeData.txt,
// PropList.txt and DerivedCoreProperties.txt.
const UNSEEN: [(u32, u32); 21] = [
    (0x0000, 0x0020),
    (0x007F, 0x00A0),
    (0x00AD, 0x00AD),
    (0x034F, 0x034F),
    (0x061C, 0x061C),
    (0x115F, 0x1160),
    (0x1680, 0x1680),
    (0x17B4, 0x17B5),
    (0x180B, 0x180F),
    (0x2000, 0x200F),
    (0x2028, 0x202F),
    (0x205F, 0x206F),
    (0x3000, 0x3000),
    (0x3164, 0x3164),
    (0xFE00, 0xFE0F),
    (0xFEFF, 0xFEFF),
    (0xFFA0, 0xFFA0),
    (0xFFF0, 0xFFF8),
    (0x1_BCA0, 0x1_BCA3),
    (0x1_D173, 0x1_D17A),
    (0xE_0000, 0xE_0FFF),
];

// Returns whether a code is one that nobody misses.
fn is_unseen(code: u32) -> bool {
    for (first, last) in UNSEEN {
        if first <= code && code <= last {
            return true;
        }
    }
    false
}

// The characters that a font does not map: how many they are, and the first of them.
#[derive(Clone, Copy)]
struct Missing {
    count: u32,
    first: [u32; NAMED],
}

impl Missing {
    // Counts a character.
    fn add(&mut self, code: u32) {
        if let Some(place) = self.first.get_mut(self.count as usize) {
            *place = code;
        }
        self.count = self.count.saturating_add(1);
    }

    // Counts the characters of a range that a font does not map.
    fn add_range(&mut self, chart: &Chart<'_>, range: CodeRange) {
        for code in range.first..=range.last {
            if chart.glyph(code) == 0 && !is_unseen(code) {
                self.add(code);
            }
        }
    }

    // Returns those of a set that a font does not map.
    fn of(alloc: Global, font: &Font<'_>, texts: &Wanted) -> Result<Missing, AllocError> {
        let Ok(chart) = Chart::of(alloc, font.mapping()) else {
            return Err(AllocError);
        };
        let mut missing = Missing {
            count: 0,
            first: [0; NAMED],
        };
        let mut from: u32 = 0;
        // No set has more ranges than there are codes.
        for _ in 0..CODES {
            let Some(range) = texts.row_from(from) else {
                break;
            };
            from = range.last.saturating_add(1);
            missing.add_range(&chart, range);
        }
        Ok(missing)
    }

    // Returns the names of the first of them.
    fn names(&self, alloc: Global) -> Result<String, AllocError> {
        let mut names = String::new(alloc);
        for &code in self.first.iter().take(self.count as usize) {
            if !names.is_empty() {
                names.push_str(", ")?;
            }
            write!(names, "U+{code:X}")?;
            if let Some(letter) = shown_character(code) {
                write!(names, " {letter}")?;
            }
        }
        Ok(names)
    }
}

/// Returns the number of wanted characters that a font does not map, but for those that nobody misses, and the first of
/// them, 0 where there is none.
///
/// # Errors
/// `AllocError` if out of memory.
pub(crate) fn missing_count(
    alloc: Global,
    font: &Font<'_>,
    wanted: &Wanted,
) -> Result<(u32, u32), AllocError> {
    let missing = Missing::of(alloc, font, wanted)?;
    Ok((missing.count, missing.first[0]))
}

/// Adds a line that counts the characters of texts that a font does not map, and names the first of them, where there are
/// such.
///
/// # Errors
/// `AllocError` if out of memory.
pub(crate) fn add_missing(
    alloc: Global,
    text: &mut String,
    font: &Font<'_>,
    name: &str,
    texts: &Wanted,
) -> Result<(), AllocError> {
    if texts.row_from(0).is_none() {
        return Ok(());
    }
    let missing = Missing::of(alloc, font, texts)?;
    let (name, count) = (Shown(name), missing.count);
    if count == 0 {
        return Ok(());
    }
    let names = missing.names(alloc)?;
    if count == 1 {
        write!(text, "fontcut: {name} lacks a wanted character: {names}\n")?;
    } else if count as usize <= NAMED {
        write!(
            text,
            "fontcut: {name} lacks {count} wanted characters: {names}\n"
        )?;
    } else {
        write!(
            text,
            "fontcut: {name} lacks {count} wanted characters, such as {names}\n"
        )?;
    }
    Ok(())
}
