//! The pairs of a union of two tables, in one pass over both. This project's own.
ghost use Rattle.std.specs.Prelude.{◌≡◌, ◌<◌, ◌≤◌, ◌^◌, length, nat_le, not, None};
ghost use Rattle.std.specs.Iterator.{YieldsFirst, item_count};
ghost use Rattle.std.specs.List.{prefix_len};
ghost use Rattle.std.specs.List.Sorted.{IsNonDecreasingBy};
ghost use Rattle.font_theory.specs.OrderedPairs.{first_twice, place_of};
ghost use Rattle.divided_tables.specs.SequenceIndex.{IsFirstOf, clash_of, is_of, order_of, united_pairs};

use codes::CODES;
use std::marker::Model;
use variation_sequences::Pair;

/// Which glyphs are of the first of two tables.
pub(crate) trait OfFirst {
    ghost use Rattle.std.specs.Prelude.{◌≡◌, ℕ, Bool};

    /// Those that are.
    ghost of_first: { Self → ℕ → Bool };

    /// Returns whether a glyph is.
    fn is_of_first(&self, g: u16) -> bool
        ensures { result ≡ of_first self.now g };
}

// Returns whether the glyph of a pair is of the first table, or of the second.
fn is_of<C: OfFirst>(choice: &C, first: bool, pair: Pair) -> bool
    ensures { result ≡ is_of (C.of_first choice.now) first pair }
{
    if first {
        choice.is_of_first(pair.glyph)
    } else {
        !choice.is_of_first(pair.glyph)
    }
}

// Returns how many pairs stand before those of a table.
fn count_others<C: OfFirst>(choice: &C, first: bool, pairs: &[Pair]) -> usize
    ensures value { result ≡ prefix_len (λ p. not (is_of (C.of_first choice.now) first p)) pairs.now }
    ensures within { result ≤ length pairs.now }
{
    for (i, pair) in pairs.iter().enumerate() {
        if is_of(choice, first, *pair) {
            return i;
        }
    }
    pairs.len()
}

// Returns the place of a pair in order of selectors and codes.
#[tactic(auto, unfolding(font_theory::specs::OrderedPairs::place_of))]
fn place_of(pair: Pair) -> u64
    ensures { result ≡ place_of pair }
{
    u64::from(CODES) * u64::from(pair.selector) + u64::from(pair.code)
}

// Returns whether a pair comes no later than another in the order of unions.
fn comes_before(pair: Pair, other: Pair) -> bool
    ensures { result ≡ nat_le (order_of pair) (order_of other) }
{
    let (place, other_place) = (place_of(pair), place_of(other));
    place < other_place || (place == other_place && pair.glyph <= other.glyph)
}

// Returns whether the first of two lists has the next pair.
fn comes_first(first: &[Pair], second: &[Pair]) -> bool
    ensures { IsFirstOf first.now second.now result }
{
    if first.is_empty() {
        return second.is_empty();
    }
    second.is_empty() || comes_before(first[0], second[0])
}

/// The pairs of a union, in order of selectors and codes, and of glyphs where two have both.
#[derive(Drop)]
pub(crate) struct UnionPairs<'a, C: OfFirst> {
    choice: &'a C,
    first: &'a [Pair],
    second: &'a [Pair],
}

// Its value is the list of pairs that are left.
impl<'a, C: OfFirst> Model for UnionPairs<'a, C> {
    ghost use Rattle.std.specs.Prelude.{List};
    ghost use Rattle.std.specs.List.Sorted.{IsNonDecreasingBy};
    ghost use Rattle.divided_tables.specs.SequenceIndex.{order_of, united_pairs};
    ghost use Rattle.variation_sequences.specs.declared.variant.Pair.{Pair};

    ghost Value = { List Pair };

    ghost view = { λ u. united_pairs (C.of_first u.choice.now) u.first.now u.second.now };

    ghost invariant = { λ u. IsNonDecreasingBy order_of u.first.now × IsNonDecreasingBy order_of u.second.now };
}

impl<'a, C: OfFirst> UnionPairs<'a, C> {
    /// Returns the pairs of two tables.
    pub(crate) fn of(choice: &'a C, first: &'a [Pair], second: &'a [Pair]) -> UnionPairs<'a, C>
        requires first { IsNonDecreasingBy order_of first.now }
        requires second { IsNonDecreasingBy order_of second.now }
        ensures { result ≡ united_pairs (C.of_first choice.now) first.now second.now }
    {
        UnionPairs {
            choice,
            first,
            second,
        }
    }
}

impl<'a, C: OfFirst> Iterator for UnionPairs<'a, C> {
    type Item = Pair;

    ghost next_gives = { YieldsFirst (λ s. s) };

    ghost remaining = { item_count (λ s. s) };

    fn next(&mut self) -> Option<Pair> {
        let first = &self.first[count_others(self.choice, true, self.first)..];
        let second = &self.second[count_others(self.choice, false, self.second)..];
        if comes_first(first, second) {
            let Some((pair, others)) = first.split_first() else {
                return None;
            };
            self.first = others;
            self.second = second;
            return Some(*pair);
        }
        let Some((pair, others)) = second.split_first() else {
            return None;
        };
        self.first = first;
        self.second = others;
        Some(*pair)
    }
}

// Returns the selector and code of a pair, if that after it has the same.
fn clash_of(before: Option<Pair>, pair: Pair) -> Option<(u32, u32)>
    ensures { result ≡ clash_of before pair }
{
    match before {
        Some(other) => {
            if place_of(other) == place_of(pair) {
                return Some((other.selector, other.code));
            }
            None
        }
        None => None,
    }
}

/// Returns the first selector and code that a union has twice, and how many pairs there are where it has none.
pub(crate) fn first_twice<C: OfFirst>(pairs: UnionPairs<'_, C>) -> (Option<(u32, u32)>, usize)
    requires { length pairs < 2 ^ 32 }
    ensures twice { result.0 ≡ first_twice pairs.entry }
    ensures count { result.0 ≡ None → result.1 ≡ length pairs.entry }
{
    let mut before = None;
    let mut count = 0;
    for pair in pairs {
        if let Some(clash) = clash_of(before, pair) {
            return (Some(clash), count);
        }
        before = Some(pair);
        count += 1;
    }
    (None, count)
}
