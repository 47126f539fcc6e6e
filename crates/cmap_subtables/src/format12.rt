//! Groups, each of codes on neighbouring glyphs. OpenType 1.9, cmap, Format 12: Segmented coverage.
//!
//! A subtable `s` is given with all bytes of `cmap` after it.
ghost use Rattle.std.specs.Prelude.{◌≡◌, ◌+◌, ◌*◌, ◌<◌, ◌≤◌, ◌^◌, ◌↔◌, IsTrue, IfSome, MatchOption, drop, find, length, [], ◌∷◌};
ghost use Rattle.codes.specs.CharacterMap.{IsUnmapped, clipped};
ghost use Rattle.cmap_subtables.specs.Format12.{Decides, HasGroups, HasOrderedGroups, glyph_along, glyph_of_group, group_count, group_glyph, group_in, groups_of, holds};
ghost use Rattle.codes.specs.Order.{IsFirstReaching};
ghost use Rattle.cmap_subtables.specs.Inside.{group_end, group_nth};
ghost use Rattle.codes.specs.Runs.{IsNext, IsPiece, NoRun};
ghost use Rattle.codes.specs.declared.code_points.TheConstants.{CODES};

use codes::{ANYWHERE, CODES, Ends, LAST_CODE, Run, first_reaching};
use sfnt_bytes::be32;
use std::marker::Model;

/// How many bytes stand before the groups.
const HEADER: usize = 16;

/// How many bytes a group has.
const GROUP: usize = 12;

/// A group as it is listed: nothing of it is checked.
#[derive(Clone, Copy, Debug, PartialEq, Eq)]
pub struct ListedGroup {
    /// startCharCode
    pub first: u32,
    /// endCharCode
    pub last: u32,
    /// startGlyphID
    pub glyph: u32,
}

impl ListedGroup {
    // Past 2^32, too: the sum does not wrap.
    pub fn glyph_along(self, code: u32) -> u64
        requires { self.first ≤ code }
        ensures { result ≡ glyph_along self code }
    {
        u64::from(self.glyph) + u64::from(code - self.first)
    }
}

/// Returns numGroups.
#[tactic(auto, using(crate::proofs::GroupLemmas::groups_end), unfolding(crate::specs::Format12::group_count))]
pub fn count_groups(s: &[u8]) -> usize
    requires { 16 ≤ length s.now }
    ensures value { result ≡ group_count s.now }
    ensures end { drop result (groups_of s.now) ≡ [] }
    ensures small { result < 2 ^ 32 }
{
    be32(s, 12) as usize
}

#[tactic(auto, unfolding(crate::specs::Format12::group_in))]
fn read_group(s: &[u8], i: usize) -> ListedGroup
    requires { 28 + 12 * i ≤ length s.now }
    ensures { result ≡ group_in s.now i }
{
    let at = HEADER + GROUP * i;
    ListedGroup {
        first: be32(s, at),
        last: be32(s, at + 4),
        glyph: be32(s, at + 8),
    }
}

#[tactic(auto, using(crate::proofs::GroupLemmas::group_is, crate::proofs::GroupLemmas::groups_step))]
pub fn group_at(s: &[u8], i: usize) -> ListedGroup
    requires room { HasGroups s.now }
    requires there { i < group_count s.now }
    ensures value { result ≡ group_nth (groups_of s.now) i }
    ensures next { drop i (groups_of s.now) ≡ result ∷ drop (i + 1) (groups_of s.now) }
{
    read_group(s, i)
}

// Returns whether each group has a code, and lies strictly above the one before it.
fn has_ordered_groups(s: &[u8]) -> bool
    requires { HasGroups s.now }
    ensures { IsTrue result ↔ HasOrderedGroups s.now }
{
    let count = count_groups(s);
    let mut low: u64 = 0;
    for i in 0..count {
        let group = group_at(s, i);
        if u64::from(group.first) < low || group.last < group.first {
            return false;
        }
        low = u64::from(group.last) + 1;
    }
    true
}

// Returns the first listed group that has the code. It stands at the place `i`, where groups stand in
// order.
fn group_of(s: &[u8], i: usize, code: u32) -> Option<ListedGroup>
    requires room { HasGroups s.now }
    requires order { HasOrderedGroups s.now }
    requires place { IsFirstReaching (group_end s.now) (group_count s.now) code i }
    ensures value { result ≡ find (holds code) (groups_of s.now) }
    ensures begins { IfSome result (λ group. group.first ≤ code) }
{
    if i >= count_groups(s) {
        return None;
    }
    let group = group_at(s, i);
    if code < group.first {
        return None;
    }
    Some(group)
}

// Returns the first listed group that has the code, group by group.
fn walk_groups(s: &[u8], code: u32) -> Option<ListedGroup>
    requires { HasGroups s.now }
    ensures value { result ≡ find (holds code) (groups_of s.now) }
    ensures begins { IfSome result (λ group. group.first ≤ code) }
{
    let count = count_groups(s);
    for i in 0..count {
        let group = group_at(s, i);
        if group.first <= code && code <= group.last {
            return Some(group);
        }
    }
    None
}

// Returns the codes from a given one on that a group alone maps to one of the glyphs.
fn run_in_group(group: ListedGroup, from: u32, glyphs: u16) -> Option<Run>
    ensures { MatchOption result (NoRun (clipped glyphs (glyph_of_group group)) from)
        (IsPiece (clipped glyphs (glyph_of_group group)) from) }
{
    let end = group.last.min(LAST_CODE);
    let mut first = from.max(group.first);
    if end < first {
        return None;
    }
    let mut glyph = u64::from(group.glyph) + u64::from(first - group.first);
    if glyph == 0 {
        first += 1;
        glyph = 1;
    }
    if end < first || u64::from(glyphs) <= glyph {
        return None;
    }
    let room = u64::from(glyphs) - 1 - glyph;
    let last = if u64::from(end - first) < room {
        end
    } else {
        first + room as u32
    };
    Some(Run {
        first,
        last,
        glyph: glyph as u16,
    })
}

// Returns the group that alone decides the codes from `from` on up to a stop, cut off there; and the
// stop. It stands at the place `i`, where groups stand in order.
fn reach_at(s: &[u8], i: usize, from: u32) -> (Option<ListedGroup>, u32)
    requires room { HasGroups s.now }
    requires order { HasOrderedGroups s.now }
    requires place { IsFirstReaching (group_end s.now) (group_count s.now) from i }
    requires low { from < CODES }
    ensures order { from < result.1 }
    ensures small { result.1 ≤ CODES }
    ensures found { Decides s.now from result.0 result.1 }
{
    if i >= count_groups(s) {
        return (None, CODES);
    }
    let group = group_at(s, i);
    let last = group.last.min(LAST_CODE);
    (Some(ListedGroup { last, ..group }), last + 1)
}

// Returns the same, group by group: a group that is listed before the one that has the code decides from
// its first code on.
fn walk_reach(s: &[u8], from: u32) -> (Option<ListedGroup>, u32)
    requires room { HasGroups s.now }
    requires low { from < CODES }
    ensures order { from < result.1 }
    ensures small { result.1 ≤ CODES }
    ensures found { Decides s.now from result.0 result.1 }
{
    let count = count_groups(s);
    let mut stop = CODES;
    for i in 0..count {
        let group = group_at(s, i);
        if group.first <= from && from <= group.last {
            let last = group.last.min(stop - 1);
            return (Some(ListedGroup { last, ..group }), last + 1);
        }
        if from < group.first {
            stop = stop.min(group.first);
        }
    }
    (None, stop)
}

// Returns what the group that decides the codes up to a stop maps of them, as a piece of the map.
fn stretch_by_group(
    s: &[u8],
    found: Option<ListedGroup>,
    stop: u32,
    glyphs: u16,
    from: u32,
) -> Option<Run>
    requires { Decides s.now from found stop }
    ensures { MatchOption result
        (IsUnmapped (clipped glyphs (group_glyph s.now)) from stop)
        (IsPiece (clipped glyphs (group_glyph s.now)) from) }
{
    match found {
        Some(group) => run_in_group(group, from, glyphs),
        None => None,
    }
}

/// All groups of a subtable.
///
/// They may stand in any order and overlap: they are searched by halves where they stand in order, and
/// one by one elsewhere.
#[derive(Drop)]
pub struct ListedGroups<'a> {
    bytes: &'a [u8],
    ordered: bool,
}

// Its value is the bytes of the subtable.
impl<'a> Model for ListedGroups<'a> {
    ghost use Rattle.std.specs.Prelude.{ℕ, List, IsTrue};
    ghost use Rattle.cmap_subtables.specs.Format12.{HasGroups, HasOrderedGroups};

    ghost Value = { List ℕ };

    ghost view = { λ g. g.bytes.now };

    ghost invariant = { λ g. HasGroups g.bytes.now × (IsTrue g.ordered → HasOrderedGroups g.bytes.now) };
}

impl<'a> ListedGroups<'a> {
    /// Returns the groups of a subtable, and finds out whether they stand in order.
    pub fn of(s: &'a [u8]) -> ListedGroups<'a>
        requires { HasGroups s.now }
        ensures { result ≡ s.now }
    {
        let ordered = has_ordered_groups(s);
        ListedGroups { bytes: s, ordered }
    }

    /// Returns the bytes of the subtable.
    pub fn bytes(&self) -> &[u8]
        ensures value { result.now ≡ self.now }
        ensures sound { HasGroups self.now }
    {
        self.bytes
    }

    /// Returns whether the groups stand in order.
    pub fn is_ordered(&self) -> bool {
        self.ordered
    }

    // Returns the first listed group that has the code.
    #[tactic(auto, using(crate::proofs::GroupLemmas::group_ascends))]
    fn find(&self, code: u32) -> Option<ListedGroup>
        ensures value { result ≡ find (holds code) (groups_of self.now) }
        ensures begins { IfSome result (λ group. group.first ≤ code) }
    {
        if self.ordered {
            return group_of(self.bytes, first_reaching(self, ANYWHERE, code), code);
        }
        walk_groups(self.bytes, code)
    }

    /// Returns the glyph of a code by the first listed group that has it, and 0 where none has it.
    #[tactic(auto, unfolding(crate::specs::Format12::group_glyph))]
    pub fn glyph(&self, code: u32) -> u64
        ensures { result ≡ group_glyph self.now code }
    {
        match self.find(code) {
            Some(group) => group.glyph_along(code),
            None => 0,
        }
    }

    // Returns the group that alone decides the codes from `from` on up to a stop, cut off there; and the
    // stop.
    #[tactic(auto, using(crate::proofs::GroupLemmas::group_ascends))]
    fn reach(&self, from: u32) -> (Option<ListedGroup>, u32)
        requires low { from < CODES }
        ensures order { from < result.1 }
        ensures small { result.1 ≤ CODES }
        ensures found { Decides self.now from result.0 result.1 }
    {
        if self.ordered {
            return reach_at(self.bytes, first_reaching(self, ANYWHERE, from), from);
        }
        walk_reach(self.bytes, from)
    }

    /// Returns a piece of the map from a code on, or none up to a stop; and the stop.
    pub fn stretch(&self, glyphs: u16, from: u32) -> (Option<Run>, u32)
        requires low { from < CODES }
        ensures order { from < result.1 }
        ensures small { result.1 ≤ CODES }
        ensures found { MatchOption result.0
            (IsUnmapped (clipped glyphs (group_glyph self.now)) from result.1)
            (IsPiece (clipped glyphs (group_glyph self.now)) from) }
    {
        let (found, stop) = self.reach(from);
        (
            stretch_by_group(self.bytes, found, stop, glyphs, from),
            stop,
        )
    }

    /// Returns the first piece of the map from a code on and a hint where the next one may be, or `None`
    /// where the groups stand out of order.
    pub fn piece_by_hint(&self, glyphs: u16, hint: usize, from: u32) -> Option<(Option<Run>, usize)>
        ensures { IfSome result (λ found. IsNext (clipped glyphs (group_glyph self.now)) from found.0) }
    {
        if self.ordered {
            return Some(piece_near(self, glyphs, hint, from));
        }
        None
    }
}

impl<'a> Ends for ListedGroups<'a> {
    ghost use Rattle.cmap_subtables.specs.Format12.{group_count};
    ghost use Rattle.cmap_subtables.specs.Inside.{group_end};

    ghost count_of = { group_count };

    ghost end_of = { group_end };

    fn count(&self) -> usize {
        count_groups(self.bytes)
    }

    fn end_at(&self, i: usize) -> u32 {
        group_at(self.bytes, i).last
    }
}

// Returns the first piece of the map from a code on, where groups stand in order, and the place of the
// group that has it. Where that is the place that the hint names or one soon after it, no group is
// searched for.
#[tactic(auto, using(crate::proofs::GroupLemmas::group_ascends))]
fn piece_near(
    groups: &ListedGroups<'_>,
    glyphs: u16,
    hint: usize,
    from: u32,
) -> (Option<Run>, usize)
    requires { HasOrderedGroups groups.now }
    ensures { IsNext (clipped glyphs (group_glyph groups.now)) from result.0 }
{
    let s = groups.bytes();
    let mut at = from;
    let mut place = hint;
    while at < CODES {
        place = first_reaching(groups, place, at);
        let (found, stop) = reach_at(s, place, at);
        if let Some(run) = stretch_by_group(s, found, stop, glyphs, at) {
            return (Some(run), place);
        }
        at = stop;
    }
    (None, place)
}
