//! Subtables of lookups. OpenType 1.9, GSUB, Lookup types.
ghost use Rattle.std.specs.Prelude.{◌≡◌, ◌+◌, ◌≤◌, ◌<◌, ◌^◌, IfSome, length};
ghost use Rattle.font_layout.specs.Steps.{extension_subtable, no_subtable as empty_subtable, plain_subtable, offset_subtable};
ghost use Rattle.font_layout.specs.Inside.{HasSubtable};

use crate::coverage::{Coverage, NO_COVERAGE, read_coverage};
use crate::lookup::is_unknown_type;
use crate::rule::{Rule, read_rule};
use sfnt_bytes::{be16, be32};

/// A subtable: the glyphs that it covers, what it has for them, and how many offsets lead to it and to its
/// Coverage.
#[derive(Clone, Copy, Debug, PartialEq, Eq)]
pub(crate) struct Subtable {
    pub(crate) rule: Rule,
    pub(crate) coverage: Coverage,
    pub(crate) offsets: u32,
}

/// Returns a subtable with nothing in it, to which so many offsets lead.
pub(crate) fn no_subtable(offsets: u32) -> Subtable
    ensures { result ≡ empty_subtable offsets }
{
    Subtable {
        rule: Rule::Shift(0),
        coverage: NO_COVERAGE,
        offsets,
    }
}

// Returns the subtable of a type at a place, which is no extension, and to which so many offsets lead.
#[tactic(auto, unfolding(crate::specs::Steps::plain_subtable))]
fn read_plain(table: &[u8], kind: u16, at: usize, offsets: u32) -> Option<Subtable>
    requires { offsets ≤ 2 }
    ensures value { result ≡ plain_subtable table.now kind at offsets }
    ensures room { IfSome result (HasSubtable table.now) }
{
    if kind == 5 || kind == 6 {
        return Some(no_subtable(offsets));
    }
    let rule = read_rule(table, kind, at)?;
    let coverage = read_coverage(table, at, be16(table, at + 2))?;
    Some(Subtable {
        rule,
        coverage,
        offsets: offsets + 1,
    })
}

// Returns what an extension at a place leads to.
#[tactic(auto, unfolding(crate::specs::Steps::extension_subtable))]
fn read_extension(table: &[u8], at: usize) -> Option<Subtable>
    ensures value { result ≡ extension_subtable table.now at }
    ensures room { IfSome result (HasSubtable table.now) }
{
    if table.len() < 8 || table.len() - 8 < at || be16(table, at) != 1 {
        return None;
    }
    let kind = be16(table, at + 2);
    if is_unknown_type(kind) || kind == 7 {
        return None;
    }
    let offset = be32(table, at + 4);
    if offset == 0 {
        return Some(no_subtable(2));
    }
    read_plain(table, kind, at + offset as usize, 2)
}

/// Returns the subtable of a type at an offset from its lookup.
#[tactic(auto, unfolding(crate::specs::Steps::offset_subtable))]
pub(crate) fn read_subtable(table: &[u8], kind: u16, base: usize, offset: u16) -> Option<Subtable>
    requires { base ≤ length table.now }
    ensures value { result ≡ offset_subtable table.now kind base offset }
    ensures room { IfSome result (HasSubtable table.now) }
{
    if offset == 0 {
        return Some(no_subtable(1));
    }
    let place = base + offset as usize;
    if kind == 7 {
        read_extension(table, place)
    } else {
        read_plain(table, kind, place, 1)
    }
}
