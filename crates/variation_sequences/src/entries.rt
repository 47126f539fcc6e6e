//! All that a subtable says, in order of selectors and codes. OpenType 1.9, cmap, Format 14: Unicode variation
//! sequences.
ghost use Rattle.std.specs.Prelude.{◌≡◌, [], MatchOption, true};
ghost use Rattle.std.specs.Iterator.{YieldsFirst, item_count};
ghost use Rattle.codes.specs.Order.{IsFirstReaching};
ghost use Rattle.variation_sequences.specs.Format14.{list_count, mapping_code, range_first, range_last};
ghost use Rattle.variation_sequences.specs.Inside.{IsFirstVariant, IsSelectorRecord, NoVariant};
ghost use Rattle.variation_sequences.specs.Spans.{are_ascending};
ghost use Rattle.variation_sequences.specs.Sequences.{entries_of, entries_of_record};
ghost use Rattle.variation_sequences.specs.Strict.{is_strict};

use crate::lists::{
    Mappings, NO_LIST, Ranges, count_selectors, mappings_of, ranges_of, read_selector,
};
use crate::spans::{next_code, place_near};
use crate::variant::{Entry, Variant};
use codes::CODES;
use std::marker::Model;

// Returns the least code, from `from` on, of which two tables say something, and what they say. Their members of that
// code stand at these places.
fn first_variant(
    ranges: &Ranges<'_>,
    i: usize,
    mappings: &Mappings<'_>,
    j: usize,
    from: u32,
) -> Option<(u32, Variant)>
    requires range_order { are_ascending (range_first ranges.now) (range_last ranges.now)
        (list_count ranges.now) ≡ true }
    requires range_place { IsFirstReaching (range_last ranges.now) (list_count ranges.now) from i }
    requires mapping_order { are_ascending (mapping_code mappings.now) (mapping_code mappings.now)
        (list_count mappings.now) ≡ true }
    requires mapping_place { IsFirstReaching (mapping_code mappings.now) (list_count mappings.now) from j }
    ensures { MatchOption result (NoVariant ranges.now mappings.now from)
        (λ found. IsFirstVariant ranges.now mappings.now from found.0 found.1) }
{
    let in_range = next_code(ranges, i, from);
    let mapped = next_code(mappings, j, from);
    if mapped < in_range {
        return Some((mapped, Variant::Glyph(mappings.glyph_at(j))));
    }
    if in_range == CODES {
        return None;
    }
    Some((in_range, Variant::Unchanged))
}

// What the tables of one record say, in order of the codes.
#[derive(Drop)]
struct RecordEntries<'a> {
    selector: u32,
    ranges: Ranges<'a>,
    mappings: Mappings<'a>,
    // The least code that may come next.
    from: u32,
    // Where the members of the last code stood: those of the next one are likely to stand close after them.
    range: usize,
    mapping: usize,
}

// Its value is the list of entries that are left.
impl<'a> Model for RecordEntries<'a> {
    ghost use Rattle.std.specs.Prelude.{◌≡◌, ℕ, List, true};
    ghost use Rattle.variation_sequences.specs.Format14.{list_count, mapping_code, range_first, range_last};
    ghost use Rattle.variation_sequences.specs.Spans.{are_ascending};
    ghost use Rattle.variation_sequences.specs.Sequences.{entries_in};
    ghost use Rattle.variation_sequences.specs.declared.variant.Entry.{Entry};

    ghost Value = { List Entry };

    ghost view = { λ e. entries_in e.selector e.ranges e.mappings e.from };

    ghost invariant = { λ e.
        (are_ascending (range_first e.ranges) (range_last e.ranges) (list_count e.ranges) ≡ true)
        × (are_ascending (mapping_code e.mappings) (mapping_code e.mappings) (list_count e.mappings)
        ≡ true) };
}

impl<'a> RecordEntries<'a> {
    // Returns nothing.
    fn none() -> RecordEntries<'a>
        ensures { result ≡ [] }
    {
        RecordEntries {
            selector: 0,
            ranges: Ranges::of(NO_LIST),
            mappings: Mappings::of(NO_LIST),
            from: CODES,
            range: 0,
            mapping: 0,
        }
    }

    // Returns what a record says.
    fn of(s: &'a [u8], k: usize) -> RecordEntries<'a>
        requires { IsSelectorRecord s.now k }
        ensures { result ≡ entries_of_record s.now k }
    {
        RecordEntries {
            selector: read_selector(s, k),
            ranges: Ranges::of(ranges_of(s, k)),
            mappings: Mappings::of(mappings_of(s, k)),
            from: 0,
            range: 0,
            mapping: 0,
        }
    }
}

impl<'a> Iterator for RecordEntries<'a> {
    type Item = Entry;

    ghost next_gives = { YieldsFirst (λ s. s) };

    ghost remaining = { item_count (λ s. s) };

    #[tactic(auto, using(crate::proofs::EntryLemmas::entries_first, crate::proofs::EntryLemmas::entries_none))]
    fn next(&mut self) -> Option<Entry> {
        let i = place_near(&self.ranges, self.range, self.from);
        let j = place_near(&self.mappings, self.mapping, self.from);
        let Some((code, variant)) = first_variant(&self.ranges, i, &self.mappings, j, self.from)
        else {
            return None;
        };
        self.from = code + 1;
        self.range = i;
        self.mapping = j;
        Some(Entry {
            selector: self.selector,
            code,
            variant,
        })
    }
}

/// All that a subtable says, in order of selectors and codes.
#[derive(Drop)]
pub struct Entries<'a> {
    bytes: &'a [u8],
    now: RecordEntries<'a>,
    // How many records were begun.
    begun: usize,
}

// Its value is the list of entries that are left.
impl<'a> Model for Entries<'a> {
    ghost use Rattle.std.specs.Prelude.{◌≡◌, ◌++◌, List, true};
    ghost use Rattle.variation_sequences.specs.Sequences.{entries_from_record};
    ghost use Rattle.variation_sequences.specs.Strict.{is_strict};
    ghost use Rattle.variation_sequences.specs.declared.variant.Entry.{Entry};

    ghost Value = { List Entry };

    ghost view = { λ e. e.now ++ entries_from_record e.bytes.now e.begun };

    ghost invariant = { λ e. is_strict e.bytes.now ≡ true };
}

impl<'a> Entries<'a> {
    /// Returns all that a subtable says.
    pub fn of(bytes: &'a [u8]) -> Entries<'a>
        requires { is_strict bytes.now ≡ true }
        ensures { result ≡ entries_of bytes.now }
    {
        Entries {
            bytes,
            now: RecordEntries::none(),
            begun: 0,
        }
    }
}

impl<'a> Iterator for Entries<'a> {
    type Item = Entry;

    ghost next_gives = { YieldsFirst (λ s. s) };

    ghost remaining = { item_count (λ s. s) };

    fn next(&mut self) -> Option<Entry> {
        let s = self.bytes;
        let count = count_selectors(s);
        loop {
            if let Some(entry) = self.now.next() {
                return Some(entry);
            }
            if count <= self.begun {
                return None;
            }
            self.now = RecordEntries::of(s, self.begun);
            self.begun += 1;
        }
    }
}
