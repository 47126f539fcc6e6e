//! Which subtables are read. OpenType 1.9, cmap, Format 14: Unicode variation sequences.
ghost use Rattle.std.specs.Prelude.{◌≡◌, ◌+◌, ◌*◌, ◌<◌, ◌≤◌, MatchOption, nat_le, length, true};
ghost use Rattle.std.specs.List.{list_all, range_with_len};
ghost use Rattle.variation_sequences.specs.Format14.{list_count, range_first, range_last, selector_count};
ghost use Rattle.variation_sequences.specs.Inside.{HasLists};
ghost use Rattle.variation_sequences.specs.Spans.{are_ascending};
ghost use Rattle.variation_sequences.specs.Strict.{codes_in, entries_under, entry_count, has_lists, has_ordered_lists, has_ordered_selectors, is_apart, is_strict};

use crate::lists::{
    HEADER, MAPPING, Mappings, RANGE, RECORD, Ranges, Selectors, count_list, count_selectors,
    mappings_of, ranges_of,
};
use crate::spans::{is_ascending, member_at, place_near};
use codes::Ends;

/// How many entries a subtable has at most, so that the time to read it has a bound.
pub(crate) const MAX_ENTRIES: u32 = 1_048_576;

// Returns whether a list of members of so many bytes lies within the bytes.
fn has_list(t: &[u8], size: usize) -> bool
    requires { size < 6 }
    ensures { result ≡ nat_le (4 + size * list_count t.now) (length t.now) }
{
    4 <= t.len() && 4 + size * count_list(t) <= t.len()
}

// Returns whether both tables of a record lie within the bytes.
#[tactic(auto, unfolding(crate::specs::Strict::has_lists))]
fn has_lists(s: &[u8], k: usize) -> bool
    requires { 21 + 11 * k ≤ length s.now }
    ensures { result ≡ has_lists s.now k }
{
    has_list(ranges_of(s, k), RANGE) && has_list(mappings_of(s, k), MAPPING)
}

// Returns whether the tables of all records do.
fn have_lists(s: &[u8]) -> bool
    requires { 10 + 11 * selector_count s.now ≤ length s.now }
    ensures { result ≡ list_all (has_lists s.now) (range_with_len 0 (selector_count s.now)) }
{
    (0..count_selectors(s)).all(|k| has_lists(s, k))
}

// Returns how many codes the ranges of a default table have.
#[tactic(auto, using(crate::proofs::PlaceLemmas::sum_more), unfolding(crate::specs::Strict::codes_in))]
fn codes_in(t: &[u8]) -> u64
    requires { 4 + 4 * list_count t.now ≤ length t.now }
    ensures value { result ≡ codes_in t.now }
    ensures least { list_count t.now ≤ result }
    ensures most { result ≤ 256 * list_count t.now }
{
    let ranges = Ranges::of(t);
    let mut codes: u64 = 0;
    let count = count_list(t);
    for i in 0..count {
        codes += u64::from(ranges.more_at(i)) + 1;
    }
    codes
}

// Returns whether no range has the code of a mapping.
#[tactic(auto, unfolding(crate::specs::Strict::is_apart))]
fn is_apart(ranges: &Ranges<'_>, mappings: &Mappings<'_>) -> bool
    requires { are_ascending (range_first ranges.now) (range_last ranges.now) (list_count ranges.now) ≡ true }
    ensures { result ≡ is_apart ranges.now mappings.now }
{
    let mut place = 0;
    for j in 0..mappings.count() {
        let code = mappings.end_at(j);
        place = place_near(ranges, place, code);
        if member_at(ranges, place, code).is_some() {
            return false;
        }
    }
    true
}

// Returns how many entries a record has, or `None` where these are more than so many.
#[tactic(auto, unfolding(crate::specs::Strict::entries_under))]
fn entries_under(s: &[u8], k: usize, most: u64) -> Option<u64>
    requires room { 21 + 11 * k ≤ length s.now }
    requires lists { HasLists s.now k }
    ensures { MatchOption result (most < entries_under s.now k)
        (λ entries. (entries ≡ entries_under s.now k) × (entries ≤ most)) }
{
    let ranges = ranges_of(s, k);
    let mappings = count_list(mappings_of(s, k)) as u64;
    // Each range has a code: where there are too many, none is looked at.
    if most < count_list(ranges) as u64 + mappings {
        return None;
    }
    let entries = codes_in(ranges) + mappings;
    if most < entries {
        return None;
    }
    Some(entries)
}

// Returns whether there are no more entries than may be.
#[tactic(auto, using(crate::proofs::PlaceLemmas::sum_more, crate::proofs::PlaceLemmas::sum_fewer), unfolding(crate::specs::Strict::entry_count))]
fn has_few_entries(s: &[u8]) -> bool
    requires room { 10 + 11 * selector_count s.now ≤ length s.now }
    requires lists { list_all (has_lists s.now) (range_with_len 0 (selector_count s.now)) ≡ true }
    ensures { result ≡ nat_le (entry_count s.now) MAX_ENTRIES }
{
    let mut left = u64::from(MAX_ENTRIES);
    let count = count_selectors(s);
    for k in 0..count {
        match entries_under(s, k, left) {
            Some(entries) => left -= entries,
            None => return false,
        }
    }
    true
}

// Returns whether the records stand in order of their selectors.
fn has_ordered_selectors(s: &[u8]) -> bool
    requires { 10 + 11 * selector_count s.now ≤ length s.now }
    ensures { result ≡ has_ordered_selectors s.now }
{
    is_ascending(&Selectors::of(s))
}

// Returns whether the ranges and the mappings of a record stand in order of their codes, and no code is in both.
#[tactic(auto, unfolding(crate::specs::Strict::has_ordered_lists))]
fn has_ordered_lists(s: &[u8], k: usize) -> bool
    requires room { 21 + 11 * k ≤ length s.now }
    requires lists { HasLists s.now k }
    ensures { result ≡ has_ordered_lists s.now k }
{
    let ranges = Ranges::of(ranges_of(s, k));
    let mappings = Mappings::of(mappings_of(s, k));
    is_ascending(&ranges) && is_ascending(&mappings) && is_apart(&ranges, &mappings)
}

// Returns whether those of all records do.
fn have_ordered_lists(s: &[u8]) -> bool
    requires room { 10 + 11 * selector_count s.now ≤ length s.now }
    requires lists { list_all (has_lists s.now) (range_with_len 0 (selector_count s.now)) ≡ true }
    ensures { result ≡ list_all (has_ordered_lists s.now) (range_with_len 0 (selector_count s.now)) }
{
    let count = count_selectors(s);
    for k in 0..count {
        if !has_ordered_lists(s, k) {
            return false;
        }
    }
    true
}

/// Returns whether a subtable is read: all in it is in order and in place.
#[tactic(auto, unfolding(crate::specs::Strict::is_strict))]
pub fn is_strict(s: &[u8]) -> bool
    requires { 10 ≤ length s.now }
    ensures { result ≡ is_strict s.now }
{
    HEADER + RECORD * count_selectors(s) <= s.len()
        && has_ordered_selectors(s)
        && have_lists(s)
        && has_few_entries(s)
        && have_ordered_lists(s)
}
