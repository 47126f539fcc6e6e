//! Lookups, and the list of them. OpenType 1.9, Layout Common Table Formats, LookupList Table.
ghost use Rattle.std.specs.Prelude.{◌≡◌, ◌+◌, ◌*◌, ◌≤◌, ◌<◌, ◌^◌, IfSome, length};
ghost use Rattle.sfnt_bytes.specs.Number.{u16_at};
ghost use Rattle.font_layout.specs.Steps.{is_unknown_type as unknown_type, lookup_at, lookup_list};

use crate::counted::counted;
use sfnt_bytes::be16;

/// A lookup: its type, its place, and how many subtables it has.
#[derive(Clone, Copy, Debug, PartialEq, Eq)]
pub(crate) struct Lookup {
    pub(crate) kind: u16,
    pub(crate) at: usize,
    pub(crate) count: usize,
}

/// A lookup with nothing in it.
pub(crate) const NO_LOOKUP: Lookup = Lookup {
    kind: 0,
    at: 0,
    count: 0,
};

/// Returns whether there is no lookup type of this number.
pub(crate) fn is_unknown_type(kind: u16) -> bool
    ensures { result ≡ unknown_type kind }
{
    kind == 0 || 8 < kind
}

/// Returns the lookup at an offset from the list.
#[tactic(auto, unfolding(crate::specs::Steps::lookup_at))]
pub(crate) fn read_lookup(table: &[u8], base: usize, offset: u16) -> Option<Lookup>
    requires header { 6 ≤ length table.now }
    requires base { base ≤ length table.now }
    ensures value { result ≡ lookup_at table.now base offset }
    ensures room { IfSome result (λ lookup. lookup.at + 6 + 2 * lookup.count ≤ length table.now) }
{
    if offset == 0 {
        return Some(NO_LOOKUP);
    }
    let at = base + offset as usize;
    let count = counted(table, at + 4, 2)?;
    let kind = be16(table, at);
    if is_unknown_type(kind) {
        return None;
    }
    Some(Lookup { kind, at, count })
}

/// Returns how many lookups the list has.
#[tactic(auto, unfolding(crate::specs::Steps::lookup_list))]
pub(crate) fn count_lookups(table: &[u8]) -> Option<usize>
    ensures value { result ≡ lookup_list table.now }
    ensures header { IfSome result (λ _. 10 ≤ length table.now) }
    ensures room { IfSome result (λ n. u16_at table.now 8 + 2 + 2 * n ≤ length table.now) }
{
    if table.len() < 10 || be16(table, 0) != 1 {
        return None;
    }
    let offset = be16(table, 8);
    if offset == 0 {
        return Some(0);
    }
    counted(table, offset as usize, 2)
}
