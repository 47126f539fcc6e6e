//! The items of `font_map`.
use font_map::{
    CodeRange, Group, Groups, MapError, Mapping, Run, Wanted, WantedError, WordError, read_word,
};
use sfnt_bytes::NoMemory;
use std::alloc::Global;

/// Reads a mapping, within a wanted set too.
///
/// # Errors
/// The refusal of the mapping.
pub fn mapping(cmap: &[u8], glyphs: u16, wanted: &Wanted) -> Result<u32, MapError> {
    let mapping: Mapping<'_> = Mapping::choose(cmap, glyphs)?;
    let (_platform, _encoding, _format): (u16, u16, u16) = mapping.chosen();
    let glyph: u16 = mapping.glyph(0x41);
    let count: u32 = mapping.mapped_count();
    let run: Option<Run> = mapping.next_run(0);
    let of_wanted: Option<Run> = mapping.wanted_run(wanted, 0);
    let mut groups: Groups<'_> = Groups::of(&mapping, wanted);
    let first: Option<Group> = groups.next();
    let ends: u32 = match (run, of_wanted, first) {
        (Some(run), Some(other), Some(group)) => run.last.min(other.first).min(group.last),
        _ => 0,
    };
    Ok(count.min(ends).min(u32::from(glyph)))
}

/// Makes wanted sets of a range word.
///
/// # Errors
/// The refusal of the range.
pub fn wanted_sets(alloc: Global, first: u32, last: u32) -> Result<bool, WantedError> {
    let mut wanted: Wanted = Wanted::new(alloc);
    let added: Result<(), WantedError> = wanted.add(first, last);
    added?;
    let all: Result<Wanted, NoMemory> = Wanted::all(alloc);
    let is_all: bool = match &all {
        Ok(all) => all.contains(first),
        Err(_) => false,
    };
    let word: Result<(u32, u32), WordError> = read_word("U+41-5A");
    let range: Result<CodeRange, WordError> = "U+41-5A".parse();
    Ok(is_all && word.is_ok() && range.is_ok() && wanted.contains(first))
}
