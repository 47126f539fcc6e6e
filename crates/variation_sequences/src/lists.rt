//! The lists of a subtable: records, ranges and mappings. OpenType 1.9, cmap, Format 14: Unicode variation sequences.
ghost use Rattle.std.specs.Prelude.{◌≡◌, ◌+◌, ◌*◌, ◌<◌, ◌≤◌, ◌^◌, length};
ghost use Rattle.variation_sequences.specs.Format14.{list_at, list_count, mapping_glyph, mappings_of, range_more, default_ranges, selector_at, selector_count, u24_at};

use crate::spans::Spans;
use codes::Ends;
use sfnt_bytes::{be16, be32};
use std::marker::Model;

/// How many bytes stand before the records.
pub(crate) const HEADER: usize = 10;

/// How many bytes a record has.
pub(crate) const RECORD: usize = 11;

/// How many bytes stand before ranges and mappings.
pub(crate) const COUNT: usize = 4;

/// How many bytes a range has.
pub(crate) const RANGE: usize = 4;

/// How many bytes a mapping has.
pub(crate) const MAPPING: usize = 5;

/// The list that the offset 0 stands for: its count is 0.
pub(crate) const NO_LIST: &[u8] = &[0, 0, 0, 0];

// Returns the big-endian `u24` at the byte `at`.
#[tactic(auto, unfolding(crate::specs::Format14::u24_at))]
fn be24(b: &[u8], at: usize) -> u32
    requires { at + 3 ≤ length b.now }
    ensures value { result ≡ u24_at b.now at }
    ensures small { result < 2 ^ 24 }
{
    u32::from(b[at]) * 65536 + u32::from(b[at + 1]) * 256 + u32::from(b[at + 2])
}

/// Returns numVarSelectorRecords.
#[tactic(auto, unfolding(crate::specs::Format14::selector_count))]
pub(crate) fn count_selectors(s: &[u8]) -> usize
    requires { 10 ≤ length s.now }
    ensures value { result ≡ selector_count s.now }
    ensures small { result < 2 ^ 32 }
{
    be32(s, 6) as usize
}

/// Returns the selector of a record.
#[tactic(auto, unfolding(crate::specs::Format14::selector_at))]
pub(crate) fn read_selector(s: &[u8], k: usize) -> u32
    requires { 21 + 11 * k ≤ length s.now }
    ensures { result ≡ selector_at s.now k }
{
    be24(s, HEADER + RECORD * k)
}

/// Returns the number with which a list begins.
#[tactic(auto, unfolding(crate::specs::Format14::list_count))]
pub(crate) fn count_list(t: &[u8]) -> usize
    requires { 4 ≤ length t.now }
    ensures value { result ≡ list_count t.now }
    ensures small { result < 2 ^ 32 }
{
    be32(t, 0) as usize
}

// Returns the bytes from an offset on, or a list of none where the offset is 0.
#[tactic(auto, using(crate::proofs::ByteLemmas::drop_past), unfolding(crate::specs::Format14::list_at))]
fn list_at(s: &[u8], offset: u32) -> &[u8]
    ensures { result.now ≡ list_at s.now offset }
{
    if offset == 0 {
        return NO_LIST;
    }
    if s.len() < offset as usize {
        return &[];
    }
    &s[offset as usize..]
}

/// Returns what begins with the default table of a record.
#[tactic(auto, unfolding(crate::specs::Format14::default_ranges))]
pub(crate) fn ranges_of(s: &[u8], k: usize) -> &[u8]
    requires { 21 + 11 * k ≤ length s.now }
    ensures { result.now ≡ default_ranges s.now k }
{
    list_at(s, be32(s, 13 + RECORD * k))
}

/// Returns what begins with the non-default table of a record.
#[tactic(auto, unfolding(crate::specs::Format14::mappings_of))]
pub(crate) fn mappings_of(s: &[u8], k: usize) -> &[u8]
    requires { 21 + 11 * k ≤ length s.now }
    ensures { result.now ≡ mappings_of s.now k }
{
    list_at(s, be32(s, 17 + RECORD * k))
}

/// The selectors of the records.
#[derive(Drop)]
pub(crate) struct Selectors<'a> {
    bytes: &'a [u8],
}

// Their value is the bytes of the subtable.
impl<'a> Model for Selectors<'a> {
    ghost use Rattle.std.specs.Prelude.{ℕ, ◌+◌, ◌*◌, ◌≤◌, List, length};
    ghost use Rattle.variation_sequences.specs.Format14.{selector_count};

    ghost Value = { List ℕ };

    ghost view = { λ r. r.bytes.now };

    ghost invariant = { λ r. 10 + 11 * selector_count r.bytes.now ≤ length r.bytes.now };
}

impl<'a> Selectors<'a> {
    /// Returns the selectors of a subtable.
    pub(crate) fn of(bytes: &'a [u8]) -> Selectors<'a>
        requires { 10 + 11 * selector_count bytes.now ≤ length bytes.now }
        ensures { result ≡ bytes.now }
    {
        Selectors { bytes }
    }
}

impl<'a> Ends for Selectors<'a> {
    ghost use Rattle.variation_sequences.specs.Format14.{selector_at, selector_count};

    ghost count_of = { selector_count };

    ghost end_of = { selector_at };

    fn count(&self) -> usize {
        count_selectors(self.bytes)
    }

    fn end_at(&self, i: usize) -> u32 {
        read_selector(self.bytes, i)
    }
}

impl<'a> Spans for Selectors<'a> {
    ghost use Rattle.variation_sequences.specs.Format14.{selector_at};

    ghost first_of = { selector_at };

    fn first_at(&self, i: usize) -> u32 {
        self.end_at(i)
    }
}

/// The ranges of a default table.
#[derive(Drop)]
pub(crate) struct Ranges<'a> {
    bytes: &'a [u8],
}

// Their value is what begins with the table.
impl<'a> Model for Ranges<'a> {
    ghost use Rattle.std.specs.Prelude.{ℕ, ◌+◌, ◌*◌, ◌≤◌, List, length};
    ghost use Rattle.variation_sequences.specs.Format14.{list_count};

    ghost Value = { List ℕ };

    ghost view = { λ r. r.bytes.now };

    ghost invariant = { λ r. 4 + 4 * list_count r.bytes.now ≤ length r.bytes.now };
}

impl<'a> Ranges<'a> {
    /// Returns the ranges of a default table.
    pub(crate) fn of(bytes: &'a [u8]) -> Ranges<'a>
        requires { 4 + 4 * list_count bytes.now ≤ length bytes.now }
        ensures { result ≡ bytes.now }
    {
        Ranges { bytes }
    }

    /// Returns how many codes a range has after its first.
    #[tactic(auto, unfolding(crate::specs::Format14::range_more))]
    pub(crate) fn more_at(&self, i: usize) -> u8
        requires { i < list_count self.now }
        ensures { result ≡ range_more self.now i }
    {
        let bytes = self.bytes;
        bytes[COUNT + RANGE * i + 3]
    }
}

impl<'a> Ends for Ranges<'a> {
    ghost use Rattle.variation_sequences.specs.Format14.{list_count, range_last};

    ghost count_of = { list_count };

    ghost end_of = { range_last };

    fn count(&self) -> usize {
        count_list(self.bytes)
    }

    #[tactic(auto, unfolding(crate::specs::Format14::range_first))]
    fn end_at(&self, i: usize) -> u32 {
        be24(self.bytes, COUNT + RANGE * i) + u32::from(self.more_at(i))
    }
}

impl<'a> Spans for Ranges<'a> {
    ghost use Rattle.variation_sequences.specs.Format14.{range_first};

    ghost first_of = { range_first };

    #[tactic(auto, unfolding(crate::specs::Format14::range_first))]
    fn first_at(&self, i: usize) -> u32 {
        be24(self.bytes, COUNT + RANGE * i)
    }
}

/// The mappings of a non-default table.
#[derive(Drop)]
pub(crate) struct Mappings<'a> {
    bytes: &'a [u8],
}

// Their value is what begins with the table.
impl<'a> Model for Mappings<'a> {
    ghost use Rattle.std.specs.Prelude.{ℕ, ◌+◌, ◌*◌, ◌≤◌, List, length};
    ghost use Rattle.variation_sequences.specs.Format14.{list_count};

    ghost Value = { List ℕ };

    ghost view = { λ r. r.bytes.now };

    ghost invariant = { λ r. 4 + 5 * list_count r.bytes.now ≤ length r.bytes.now };
}

impl<'a> Mappings<'a> {
    /// Returns the mappings of a non-default table.
    pub(crate) fn of(bytes: &'a [u8]) -> Mappings<'a>
        requires { 4 + 5 * list_count bytes.now ≤ length bytes.now }
        ensures { result ≡ bytes.now }
    {
        Mappings { bytes }
    }

    /// Returns the glyph of a mapping.
    #[tactic(auto, unfolding(crate::specs::Format14::mapping_glyph))]
    pub(crate) fn glyph_at(&self, j: usize) -> u16
        requires { j < list_count self.now }
        ensures { result ≡ mapping_glyph self.now j }
    {
        be16(self.bytes, COUNT + MAPPING * j + 3)
    }
}

impl<'a> Ends for Mappings<'a> {
    ghost use Rattle.variation_sequences.specs.Format14.{list_count, mapping_code};

    ghost count_of = { list_count };

    ghost end_of = { mapping_code };

    fn count(&self) -> usize {
        count_list(self.bytes)
    }

    #[tactic(auto, unfolding(crate::specs::Format14::mapping_code))]
    fn end_at(&self, i: usize) -> u32 {
        be24(self.bytes, COUNT + MAPPING * i)
    }
}

impl<'a> Spans for Mappings<'a> {
    ghost use Rattle.variation_sequences.specs.Format14.{mapping_code};

    ghost first_of = { mapping_code };

    fn first_at(&self, i: usize) -> u32 {
        self.end_at(i)
    }
}
