//! The variation sequences of a font, and those whose codes are wanted, which full and lean cuts drop. OpenType 1.9, cmap,
//! Format 14: Unicode Variation Sequences.
use codes::Wanted;
use font_file::Font;
use font_texts::table_named;
use sfnt_bytes::Tag;
use variation_sequences::{Entry, Sequences, pair_of};
use wanted_characters::SELECTORS;

/// Returns the variation sequences of a font, where it has a subtable of them, which is in order.
pub(crate) fn sequences_of<'a>(font: &Font<'a>) -> Option<Sequences<'a>> {
    Sequences::open(table_named(font, Tag(*b"cmap")))
}

/// Returns whether a font has a glyph for a sequence of its table.
pub(crate) fn has_glyph(font: &Font<'_>, entry: Entry) -> bool {
    pair_of(entry, font.glyph(entry.code), font.tables().glyph_count()).is_some()
}

/// Returns whether a font has a variation sequence.
pub(crate) fn has_sequence(font: &Font<'_>) -> bool {
    let Some(sequences) = sequences_of(font) else {
        return false;
    };
    for entry in sequences.entries() {
        if has_glyph(font, entry) {
            return true;
        }
    }
    false
}

// Returns whether the character and the selector of a sequence are both wanted.
fn is_wanted(wanted: &Wanted, entry: Entry) -> bool {
    wanted.contains(entry.selector) && wanted.contains(entry.code)
}

// Returns the first wanted code from one to another.
fn wanted_in(wanted: &Wanted, first: u32, last: u32) -> Option<u32> {
    match wanted.row_from(first) {
        Some(range) if range.first <= last => Some(range.first.max(first)),
        _ => None,
    }
}

// Returns whether a selector is wanted.
fn wants_selector(wanted: &Wanted) -> bool {
    for (first, last) in SELECTORS {
        if wanted_in(wanted, first, last).is_some() {
            return true;
        }
    }
    false
}

/// Returns the first variation sequence of a font whose character and selector are both wanted, if there is one.
pub(crate) fn wanted_sequence(font: &Font<'_>, wanted: &Wanted) -> Option<(u32, u32)> {
    if !wants_selector(wanted) {
        return None;
    }
    for entry in sequences_of(font)?.entries() {
        if is_wanted(wanted, entry) && has_glyph(font, entry) {
            return Some((entry.code, entry.selector));
        }
    }
    None
}
