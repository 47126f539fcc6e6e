//! The tables of cuts and of unions. OpenType 1.9, cmap, Format 14: Unicode variation sequences.
ghost use Rattle.std.specs.Prelude.{◌≡◌, ◌<◌, ◌≤◌, ◌^◌, ◌++◌, ◌∷◌, ℕ, [], length, unwrap_or, IfOk, MatchOption, OnErr};
ghost use Rattle.std.specs.List.Sorted.{IsNonDecreasingBy};
ghost use Rattle.std.specs.Option.{option_map, option_or};
ghost use Rattle.sfnt_bytes.specs.Memory.{IsRefused};
ghost use Rattle.variation_sequences.specs.Written.{HaveSmallNumbers};
ghost use Rattle.font_theory.specs.Kinds.{reduced};
ghost use Rattle.font_theory.specs.Parting.{frames};
ghost use Rattle.sfnt_bytes.specs.declared.directory.TheConstants.{MAX_FILE};
ghost use Rattle.font_write.specs.declared.source.TheConstants.{MAX_TABLE};
ghost use Rattle.divided_tables.specs.PartedTable.{IsRoomOf, IsUnionOf, alone};
ghost use Rattle.font_theory.specs.SequenceTable.{MAX_PAIRS, sequence_table, sequences_of_font, have_room};
ghost use Rattle.font_theory.specs.Parted.{sequences};
ghost use Rattle.divided_tables.specs.SequenceIndex.{order_of, united_pairs};
ghost use Rattle.divided_tables.specs.OpenSequences.{AreSequencesOf};

use crate::open_sequences::{MOST, Sequences};
use crate::sequence_reading::{CodeMap, font_pairs};
use crate::sequence_union::{OfFirst, UnionPairs, first_twice};
use font_write::Source;
use sfnt_bytes::{Memory, NoMemory};
use std::alloc::Allocator;
use variation_sequences::{Pair, make_subtable};

// The glyphs that a content keeps.
#[derive(Drop)]
struct KeptBy<'a, S: Source> {
    source: &'a S,
}

impl<'a, S: Source> OfFirst for KeptBy<'a, S> {
    ghost use Rattle.std.specs.Prelude.{is_some};

    ghost of_first = { λ k g. is_some ((S.content_of k.source.now).outline g) };

    fn is_of_first(&self, g: u16) -> bool {
        self.source.keeps(g)
    }
}

// Returns the table of pairs.
#[tactic(auto, using(crate::proofs::MadeSequenceLemmas::small_table, crate::proofs::MadeSequenceLemmas::table_none, crate::proofs::MadeSequenceLemmas::table_some), unfolding(font_theory::specs::SequenceTable::MAX_PAIRS))]
fn table_of<A: Memory>(alloc: A, pairs: &[Pair]) -> Result<Vec<u8, A>, NoMemory>
    requires few { length pairs.now ≤ MAX_PAIRS }
    requires small { HaveSmallNumbers pairs.now }
    ensures table { IfOk result (λ bytes. bytes.items ≡ sequence_table pairs.now) }
    ensures small { IfOk result (λ bytes. length bytes.items ≤ MAX_FILE) }
    ensures memory { OnErr result (IsRefused A.refuses) }
{
    if pairs.is_empty() {
        return alloc.room_for(0);
    }
    make_subtable(alloc, pairs)
}

// Returns a list of the pairs of a union.
fn listed<C: OfFirst, A: Memory>(
    alloc: A,
    pairs: UnionPairs<'_, C>,
    room: usize,
) -> Result<Vec<Pair, A>, NoMemory>
    ensures pairs { IfOk result (λ v. v.items ≡ pairs.entry) }
    ensures memory { OnErr result (IsRefused A.refuses) }
{
    let mut list = alloc.room_for(room)?;
    for pair in pairs {
        A::push(&mut list, pair)?;
    }
    Ok(list)
}

// Returns the table of a union, or none where it would have too many pairs.
#[tactic(auto, unfolding(font_theory::specs::SequenceTable::MAX_PAIRS))]
fn table_of_both<C: OfFirst, A: Memory + Copy>(
    alloc: A,
    choice: &C,
    first: &[Pair],
    second: &[Pair],
) -> Result<Option<Vec<u8, A>>, NoMemory>
    requires first { IsNonDecreasingBy order_of first.now }
    requires second { IsNonDecreasingBy order_of second.now }
    requires small { HaveSmallNumbers (united_pairs (C.of_first choice.now) first.now second.now) }
    ensures table { IfOk result (λ o. MatchOption o
        (MAX_PAIRS < length (united_pairs (C.of_first choice.now) first.now second.now))
        (λ v. v.items ≡ sequence_table (united_pairs (C.of_first choice.now) first.now second.now))) }
    ensures small { IfOk result (λ o. length (unwrap_or (option_map (λ v. v.items) o) []) ≤ MAX_TABLE) }
    ensures memory { OnErr result (IsRefused A.refuses) }
{
    let pairs = listed(alloc, UnionPairs::of(choice, first, second), first.len())?;
    if MOST < pairs.len() {
        return Ok(None);
    }
    let bytes = table_of(alloc, &pairs)?;
    Ok(Some(bytes))
}

/// Returns the frame of the table in a slot of a content, where there is one: it is empty.
///
/// # Errors
///
/// `NoMemory` if out of memory.
pub(crate) fn empty_frame<S: Source, B: Memory>(
    alloc: B,
    source: &S,
    slot: usize,
) -> Result<Option<Vec<u8, B>>, NoMemory>
    ensures table { IfOk result (λ o. option_map (λ v. v.items) o
        ≡ frames (alone sequences) (S.content_of source.now).copied slot) }
    ensures small { IfOk result (λ o. length (unwrap_or (option_map (λ v. v.items) o) []) ≤ MAX_TABLE) }
    ensures memory { OnErr result (IsRefused B.refuses) }
{
    match source.copied(slot) {
        None => Ok(None),
        Some(_) => {
            let bytes = alloc.room_for(0)?;
            Ok(Some(bytes))
        }
    }
}

// Tells whether the pairs of a union have room in a table.
#[tactic(auto, unfolding(font_theory::specs::SequenceTable::have_room, font_theory::specs::SequenceTable::MAX_PAIRS))]
fn has_room<C: OfFirst>(pairs: UnionPairs<'_, C>) -> bool
    requires { length pairs < 2 ^ 32 }
    ensures { result ≡ have_room pairs.entry }
{
    let (clash, count) = first_twice(pairs);
    clash.is_none() && count <= MOST
}

impl<A: Allocator> Sequences<A> {
    /// Returns the table that a cut of a content has in a slot, with the pairs of the glyphs that it keeps alone, where
    /// there is one.
    ///
    /// # Errors
    ///
    /// `NoMemory` if out of memory.
    pub fn kept<S: Source, B: Memory + Copy>(
        &self,
        alloc: B,
        source: &S,
        slot: usize,
    ) -> Result<Option<Vec<u8, B>>, NoMemory>
        requires { AreSequencesOf slot (S.content_of source.now).copied self.now }
        ensures table { IfOk result (λ o. option_map (λ v. v.items) o
            ≡ (reduced (alone sequences) (S.content_of source.now)).copied slot) }
        ensures small { IfOk result (λ o. length (unwrap_or (option_map (λ v. v.items) o) []) ≤ MAX_TABLE) }
        ensures memory { OnErr result (IsRefused B.refuses) }
    {
        match source.copied(slot) {
            None => Ok(None),
            Some(_) => table_of_both(alloc, &KeptBy { source }, &self.pairs, &[]),
        }
    }

    /// Returns the table of the union of two contents with as many glyphs, where the first has one: the pairs of the
    /// first for the glyphs that it keeps, and those of the second for all other glyphs.
    ///
    /// # Errors
    ///
    /// `NoMemory` if out of memory.
    pub fn united<K: Source, L: Source, B: Memory + Copy>(
        &self,
        other: &Sequences<A>,
        alloc: B,
        first: &K,
        second: &L,
        slot: usize,
    ) -> Result<Option<Vec<u8, B>>, NoMemory>
        requires opened { AreSequencesOf slot (K.content_of first.now).copied self.now }
        requires other_opened { AreSequencesOf slot (L.content_of second.now).copied other.now }
        ensures table { IfOk result (λ o. IsUnionOf sequences slot (K.content_of first.now)
            (L.content_of second.now) (option_map (λ v. v.items) o)) }
        ensures small { IfOk result (λ o. length (unwrap_or (option_map (λ v. v.items) o) []) ≤ MAX_TABLE) }
        ensures memory { OnErr result (IsRefused B.refuses) }
    {
        let _second = second;
        match first.copied(slot) {
            None => Ok(None),
            Some(_) => {
                table_of_both(alloc, &KeptBy { source: first }, &self.pairs, &other.pairs)
            }
        }
    }

    /// Tells whether the pairs of two contents have room in the table of their union, as [`Sequences::united`] makes it: no
    /// selector and code is in two parts, and there are 1,048,576 pairs at most. It takes one pass over both tables.
    pub fn fits<K: Source, L: Source>(
        &self,
        other: &Sequences<A>,
        first: &K,
        second: &L,
        slot: usize,
    ) -> bool
        requires opened { AreSequencesOf slot (K.content_of first.now).copied self.now }
        requires other_opened { AreSequencesOf slot (L.content_of second.now).copied other.now }
        ensures { IsRoomOf sequences slot (K.content_of first.now) (L.content_of second.now) result }
    {
        let _second = second;
        let _slot = slot;
        has_room(UnionPairs::of(&KeptBy { source: first }, &self.pairs, &other.pairs))
    }
}

/// Returns the table of a font with this `cmap` and this map, among so many glyphs: without sequences it is empty.
///
/// # Errors
///
/// `NoMemory` if out of memory.
pub fn table_of_font<M: CodeMap, A: Memory + Copy>(
    alloc: A,
    cmap: &[u8],
    map: &M,
    count: u16,
) -> Result<Vec<u8, A>, NoMemory>
    requires { (code : ℕ) → 0 < M.glyph_of map.now code → M.glyph_of map.now code < count }
    ensures table { IfOk result (λ v. v.items ≡ sequences_of_font cmap.now (M.glyph_of map.now) count) }
    ensures small { IfOk result (λ v. length v.items ≤ MAX_FILE) }
    ensures memory { OnErr result (IsRefused A.refuses) }
{
    let pairs = font_pairs(alloc, cmap, map, count)?;
    table_of(alloc, &pairs)
}
