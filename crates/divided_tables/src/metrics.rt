//! Tables of metrics, in which a glyph has an advance and a bearing of its own, or a bearing alone. OpenType 1.9, hmtx; vmtx.
ghost use Rattle.std.specs.Prelude.{◌≡◌, ◌+◌, ◌*◌, ◌<◌, ◌≤◌, ◌∷◌, [], ℕ, is_some, length, nat_lt, option_copied, replicate, slice_index, unwrap_or, if◌then◌else◌, ◌||◌, IfOk, IsTrue, OnErr, false};
ghost use Rattle.std.specs.Option.{option_map, option_or};
ghost use Rattle.std.specs.Str.{bytes_eq};
ghost use Rattle.sfnt_bytes.specs.Memory.{IsRefused};
ghost use Rattle.font_tables.specs.Fields.{number_of_h_metrics};
ghost use Rattle.font_tables.specs.Refusals.{is_bad_hhea, is_bad_hmtx};
ghost use Rattle.font_theory.specs.Content.{glyph_count};
ghost use Rattle.font_theory.specs.Parted.{bare, blank, cleared, either_bytes, entry_start, entry_size, metric_bytes, pairs_in};
ghost use Rattle.font_theory.specs.Parting.{Tables};
ghost use Rattle.font_write.specs.declared.source.TheConstants.{MAX_TABLE};
ghost use Rattle.divided_tables.specs.OpenMetrics.{AreCopied, own_metrics};

use crate::parted_table::{OpenFrom, PartedTable, TablesBySlot};
use font_tables::{has_bad_hhea, has_bad_hmtx, read_number_of_h_metrics};
use font_write::Source;
use sfnt_bytes::{HHEA, HMTX, Memory, NoMemory, VHEA, VMTX};
use std::marker::{Model, PhantomData};

/// The length of a pair of an advance and a bearing.
const PAIR: usize = 4;

/// The length of an advance, and of a bearing.
const HALF: usize = 2;

// Returns the number of pairs in a table of metrics, 0 where its header does not describe it.
fn pairs_by(header: &[u8], table: &[u8], count: u16) -> usize
    ensures pairs { result ≡ if is_bad_hhea header.now count
        || is_bad_hmtx table.now (number_of_h_metrics header.now) count then 0
        else number_of_h_metrics header.now }
    ensures few { result ≤ count }
    ensures room { 0 < result → 2 * (result + count) ≤ length table.now }
{
    if has_bad_hhea(header, count) {
        return 0;
    }
    let pairs = read_number_of_h_metrics(header);
    if has_bad_hmtx(table, pairs, count) {
        return 0;
    }
    usize::from(pairs)
}

// Where the bytes of a glyph alone stand in a table, and how many they are.
#[derive(Clone, Copy)]
struct Entry {
    at: usize,
    size: usize,
}

// Returns the entry of glyph g in a table of this number of pairs, and then bearings.
#[tactic(auto, unfolding(font_theory::specs::Parted::entry_start, font_theory::specs::Parted::entry_size))]
fn entry_of(pairs: usize, g: usize) -> Entry
    requires some { 0 < pairs }
    requires few { pairs < 65536 }
    requires glyph { g < 65536 }
    ensures at { result.at ≡ entry_start pairs g }
    ensures size { result.size ≡ entry_size pairs g }
    ensures two { HALF ≤ result.size }
{
    if g + 1 < pairs {
        Entry {
            at: PAIR * g,
            size: PAIR,
        }
    } else {
        Entry {
            at: HALF * (pairs + g),
            size: HALF,
        }
    }
}

// The bytes of a glyph alone, filled with zeros to four.
#[derive(Clone, Copy)]
struct Four {
    first: u8,
    second: u8,
    third: u8,
    fourth: u8,
}

impl Four {
    // Returns four zeros.
    fn none() -> Four
        ensures { result.first ∷ result.second ∷ result.third ∷ result.fourth ∷ [] ≡ 0 ∷ 0 ∷ 0 ∷ 0 ∷ [] }
    {
        Four {
            first: 0,
            second: 0,
            third: 0,
            fourth: 0,
        }
    }

    // Tells whether they are the same as others.
    fn is_same(&self, other: &Four) -> bool
        ensures { result ≡ bytes_eq
            (self.now.first ∷ self.now.second ∷ self.now.third ∷ self.now.fourth ∷ [])
            (other.now.first ∷ other.now.second ∷ other.now.third ∷ other.now.fourth ∷ []) }
    {
        self.first == other.first
            && self.second == other.second
            && self.third == other.third
            && self.fourth == other.fourth
    }

    // Tells whether one of them is not 0.
    fn has_some(&self) -> bool
        ensures { result ≡ nat_lt 0 (length (bare (self.now.first ∷ self.now.second ∷ self.now.third
            ∷ self.now.fourth ∷ []))) }
    {
        !self.is_same(&Four::none())
    }
}

// Returns the bytes of glyph g alone.
fn four_of(bytes: &[u8], pairs: usize, g: usize) -> Four
    requires some { 0 < pairs }
    requires few { pairs < 65536 }
    requires glyph { g < 65536 }
    requires room { entry_start pairs g + entry_size pairs g ≤ length bytes.now }
    ensures { result.first ∷ result.second ∷ result.third ∷ result.fourth ∷ [] ≡ metric_bytes pairs bytes.now g }
{
    let entry = entry_of(pairs, g);
    if entry.size == PAIR {
        return Four {
            first: bytes[entry.at],
            second: bytes[entry.at + 1],
            third: bytes[entry.at + 2],
            fourth: bytes[entry.at + 3],
        };
    }
    Four {
        first: bytes[entry.at],
        second: bytes[entry.at + 1],
        third: 0,
        fourth: 0,
    }
}

// Tells whether all bytes are 0. It looks at all of them, so that the compiler may take many at a time.
fn is_zero(bytes: &[u8]) -> bool
    ensures { IsTrue result → (i : ℕ) → slice_index bytes.now i ≡ 0 }
{
    let mut any = false;
    for i in 0..bytes.len() {
        any |= bytes[i] != 0;
    }
    !any
}

// Tells whether some glyphs, from one on and below another, have all zeros for metrics of their own. Where they stand in
// pairs and in bearings both, they are not looked at.
fn are_zero(bytes: &[u8], pairs: usize, from: usize, to: usize) -> bool
    requires order { from < to }
    requires small { to < 65536 }
    requires few { pairs < 65536 }
    requires room { 0 < pairs → 2 * (pairs + to) ≤ length bytes.now }
    ensures { IsTrue result → (g : ℕ) → from ≤ g → g < to →
        nat_lt 0 (length (bare (metric_bytes pairs bytes.now g))) ≡ false }
{
    if pairs == 0 {
        return true;
    }
    if to < pairs {
        return is_zero(&bytes[PAIR * from..PAIR * to]);
    }
    if pairs <= from + 1 {
        return is_zero(&bytes[HALF * (pairs + from)..HALF * (pairs + to)]);
    }
    false
}

/// Which table of metrics: the slots of its header, and of the table itself.
pub trait Way {
    ghost use Rattle.std.specs.Prelude.{◌≡◌, ℕ, false};
    ghost use Rattle.font_theory.specs.Parting.{may_divide};
    ghost use Rattle.divided_tables.specs.PartedTable.{is_read_apart};

    ghost HEADER: { ℕ };

    ghost SLOT: { ℕ };

    /// The header is read of tables that are not divided.
    ghost header_whole: { may_divide HEADER ≡ false };

    /// Both are read as they stand in the file.
    ghost header_plain: { is_read_apart HEADER ≡ false };

    ghost slot_plain: { is_read_apart SLOT ≡ false };

    /// The slot of the header.
    const HEADER: usize;

    /// The slot of the table.
    const SLOT: usize;
}

/// Metrics along a line, of `hmtx`.
pub struct Across;

impl Way for Across {
    ghost use Rattle.std.specs.Prelude.{refl};
    ghost use Rattle.sfnt_bytes.specs.declared.tag.TheConstants.{HHEA as HHEA_SLOT, HMTX as HMTX_SLOT};

    ghost HEADER = { HHEA_SLOT };

    ghost SLOT = { HMTX_SLOT };

    ghost header_whole = { refl };

    ghost header_plain = { refl };

    ghost slot_plain = { refl };

    const HEADER: usize = HHEA;

    const SLOT: usize = HMTX;
}

/// Metrics down a column, of `vmtx`.
pub struct Down;

impl Way for Down {
    ghost use Rattle.std.specs.Prelude.{refl};
    ghost use Rattle.sfnt_bytes.specs.declared.tag.TheConstants.{VHEA as VHEA_SLOT, VMTX as VMTX_SLOT};

    ghost HEADER = { VHEA_SLOT };

    ghost SLOT = { VMTX_SLOT };

    ghost header_whole = { refl };

    ghost header_plain = { refl };

    ghost slot_plain = { refl };

    const HEADER: usize = VHEA;

    const SLOT: usize = VMTX;
}

/// A table of metrics, empty where there is none, and the number of its pairs.
#[derive(Drop)]
pub struct Metrics<'t, W: Way> {
    bytes: &'t [u8],
    pairs: usize,
    count: u16,
    way: PhantomData<W>,
}

// Its value is the number of its pairs, that of the glyphs, and its bytes.
impl<'t, W: Way> Model for Metrics<'t, W> {
    ghost use Rattle.divided_tables.specs.OpenMetrics.{HasEntries, OpenMetrics};

    ghost Value = { OpenMetrics };

    ghost view = { λ m. record {
      pairs = m.pairs;
      count = m.count;
      bytes = m.bytes.now;
    } };

    ghost invariant = { λ m. HasEntries (record {
      pairs = m.pairs;
      count = m.count;
      bytes = m.bytes.now;
    }) };
}

impl<'t, W: Way> Metrics<'t, W> {
    // Returns the bytes of a glyph alone.
    fn four(&self, g: u16) -> Four
        requires { g < self.now.count }
        ensures { result.first ∷ result.second ∷ result.third ∷ result.fourth ∷ [] ≡ own_metrics self.now g }
    {
        if self.pairs == 0 {
            return Four::none();
        }
        four_of(self.bytes, self.pairs, usize::from(g))
    }
}

impl<'t, W: Way, B: TablesBySlot<'t>> OpenFrom<'t, B> for Metrics<'t, W> {
    fn open(tables: &B) -> Option<Metrics<'t, W>> {
        let count = tables.glyph_count();
        let bytes = tables.table(W::SLOT).unwrap_or(&[]);
        let pairs = pairs_by(tables.table(W::HEADER).unwrap_or(&[]), bytes, count);
        Some(Metrics {
            bytes,
            pairs,
            count,
            way: PhantomData,
        })
    }
}

// Copies bytes of a table to the same place of another.
fn copy_bytes(to: &mut [u8], from: &[u8], at: usize, size: usize)
    requires same { length to.old ≡ length from.now }
    requires room { at + size ≤ length from.now }
    ensures { AreCopied from.now at size to.old to.new }
{
    to[at..at + size].copy_from_slice(&from[at..at + size]);
}

// Copies the bytes of glyph g alone.
fn copy_entry(to: &mut [u8], from: &[u8], pairs: usize, g: usize)
    requires some { 0 < pairs }
    requires few { pairs < 65536 }
    requires glyph { g < 65536 }
    requires same { length to.old ≡ length from.now }
    requires room { entry_start pairs g + entry_size pairs g ≤ length from.now }
    ensures { AreCopied from.now (entry_start pairs g) (entry_size pairs g) to.old to.new }
{
    let entry = entry_of(pairs, g);
    if entry.size == PAIR {
        copy_bytes(to, from, entry.at, PAIR);
    } else {
        copy_bytes(to, from, entry.at, HALF);
    }
}

// Copies what is of no single glyph: the last advance, and what stands after the bearings.
fn copy_shared(to: &mut [u8], from: &[u8], pairs: usize, count: usize)
    requires some { 0 < pairs }
    requires few { pairs ≤ count }
    requires small { count < 65536 }
    requires room { 2 * (pairs + count) ≤ length from.now }
    requires zeros { to.old ≡ replicate (length from.now) 0 }
    ensures { to.new ≡ blank pairs count from.now }
{
    copy_bytes(to, from, PAIR * (pairs - 1), HALF);
    let end = HALF * (pairs + count);
    copy_bytes(to, from, end, from.len() - end);
}

// Copies what is of no single glyph, and then, from kept glyph to kept glyph, the bytes of each.
fn copy_kept<S: Source>(to: &mut [u8], from: &[u8], source: &S, pairs: usize)
    requires some { 0 < pairs }
    requires few { pairs ≤ glyph_count (S.content_of source.now).copied }
    requires room { 2 * (pairs + glyph_count (S.content_of source.now).copied) ≤ length from.now }
    requires zeros { to.old ≡ replicate (length from.now) 0 }
    ensures { to.new ≡ cleared (λ g. is_some ((S.content_of source.now).outline g)) pairs
        (glyph_count (S.content_of source.now).copied) from.now }
{
    let count = source.glyph_count();
    copy_shared(to, from, pairs, usize::from(count));
    let mut g = source.next_kept(0);
    while g < count {
        copy_entry(to, from, pairs, usize::from(g));
        g = source.next_kept(g + 1);
    }
}

// Returns a table of this number of pairs, and then bearings, with zeros for the bytes of the glyphs that are not kept.
fn cleared_table<S: Source, A: Memory>(
    alloc: A,
    source: &S,
    table: &[u8],
    pairs: usize,
) -> Result<Vec<u8, A>, NoMemory>
    requires some { 0 < pairs }
    requires few { pairs ≤ glyph_count (S.content_of source.now).copied }
    requires room { 2 * (pairs + glyph_count (S.content_of source.now).copied) ≤ length table.now }
    ensures table { IfOk result (λ v. v.items ≡ cleared (λ g. is_some ((S.content_of source.now).outline g)) pairs
        (glyph_count (S.content_of source.now).copied) table.now) }
    ensures memory { OnErr result (IsRefused A.refuses) }
{
    let mut bytes = alloc.filled(0u8, table.len())?;
    copy_kept(&mut bytes, table, source, pairs);
    Ok(bytes)
}

// Returns a table of metrics of a content with zeros for the glyphs that are not kept. Where there is none, or its
// header does not describe it, a cut has that of the content, and none is returned.
fn kept_metrics<S: Source, A: Memory>(
    alloc: A,
    source: &S,
    header: usize,
    slot: usize,
) -> Result<Option<Vec<u8, A>>, NoMemory>
    ensures table { IfOk result (λ o.
        option_or (option_map (λ v. v.items) o) ((S.content_of source.now).copied slot)
        ≡ option_map (cleared (λ g. is_some ((S.content_of source.now).outline g))
        (pairs_in (S.content_of source.now).copied header slot)
        (glyph_count (S.content_of source.now).copied))
        ((S.content_of source.now).copied slot)) }
    ensures small { IfOk result (λ o. length (unwrap_or (option_map (λ v. v.items) o) []) ≤ MAX_TABLE) }
    ensures memory { OnErr result (IsRefused A.refuses) }
{
    let count = source.glyph_count();
    match source.copied(slot) {
        None => Ok(None),
        Some(table) => {
            let pairs = pairs_by(source.copied(header).unwrap_or(&[]), table, count);
            if pairs == 0 {
                return Ok(None);
            }
            let bytes = cleared_table(alloc, source, table, pairs)?;
            Ok(Some(bytes))
        }
    }
}

// Returns a table of this number of pairs, and then bearings, with zeros for the bytes of each glyph.
fn blank_table<A: Memory>(
    alloc: A,
    table: &[u8],
    pairs: usize,
    count: u16,
) -> Result<Vec<u8, A>, NoMemory>
    requires few { pairs ≤ count }
    requires room { 0 < pairs → 2 * (pairs + count) ≤ length table.now }
    ensures table { IfOk result (λ v. v.items ≡ blank pairs count table.now) }
    ensures memory { OnErr result (IsRefused A.refuses) }
{
    if pairs == 0 {
        let whole = alloc.copy_of(table)?;
        return Ok(whole);
    }
    let mut blank = alloc.filled(0u8, table.len())?;
    copy_shared(&mut blank, table, pairs, usize::from(count));
    Ok(blank)
}

// Returns a table of metrics of a content with zeros for the bytes of each glyph. Where its header does not describe it,
// that is all of it.
fn metrics_frame<S: Source, A: Memory>(
    alloc: A,
    source: &S,
    header: usize,
    slot: usize,
) -> Result<Option<Vec<u8, A>>, NoMemory>
    ensures table { IfOk result (λ o. option_map (λ v. v.items) o
        ≡ option_map (blank (pairs_in (S.content_of source.now).copied header slot)
        (glyph_count (S.content_of source.now).copied)) ((S.content_of source.now).copied slot)) }
    ensures small { IfOk result (λ o. length (unwrap_or (option_map (λ v. v.items) o) []) ≤ MAX_TABLE) }
    ensures memory { OnErr result (IsRefused A.refuses) }
{
    let count = source.glyph_count();
    match source.copied(slot) {
        None => Ok(None),
        Some(table) => {
            let pairs = pairs_by(source.copied(header).unwrap_or(&[]), table, count);
            let bytes = blank_table(alloc, table, pairs, count)?;
            Ok(Some(bytes))
        }
    }
}

impl<'t, W: Way> PartedTable for Metrics<'t, W> {
    ghost use Rattle.std.specs.Prelude.{false};
    ghost use Rattle.font_theory.specs.Parted.{metrics};
    ghost use Rattle.divided_tables.specs.OpenMetrics.{IsMetricsIn, metrics_parts};

    ghost slot = { W.SLOT };

    ghost parting = { metrics W.HEADER };

    ghost refuses = { λ _. false };

    ghost is_open = { λ copied m. IsMetricsIn copied W.HEADER W.SLOT m };

    ghost parts_in = { metrics_parts };

    fn has(&self, g: u16) -> bool {
        self.four(g).has_some()
    }

    fn has_none(&self, from: u16, to: u16) -> bool {
        are_zero(self.bytes, self.pairs, usize::from(from), usize::from(to))
    }

    fn is_same(&self, other: &Metrics<'t, W>, g: u16) -> bool {
        self.four(g).is_same(&other.four(g))
    }

    fn frame<S: Source, A: Memory + Copy>(
        &self,
        alloc: A,
        source: &S,
    ) -> Result<Option<Vec<u8, A>>, NoMemory> {
        metrics_frame(alloc, source, W::HEADER, W::SLOT)
    }

    fn kept<S: Source, A: Memory + Copy>(
        &self,
        alloc: A,
        source: &S,
    ) -> Result<Option<Vec<u8, A>>, NoMemory> {
        kept_metrics(alloc, source, W::HEADER, W::SLOT)
    }

    fn united<K: Source, L: Source, A: Memory + Copy>(
        &self,
        other: &Metrics<'t, W>,
        alloc: A,
        first: &K,
        second: &L,
    ) -> Result<Option<Vec<u8, A>>, NoMemory> {
        let _other = other;
        let _alloc = alloc;
        let _first = first;
        let _second = second;
        Ok(None)
    }
}
