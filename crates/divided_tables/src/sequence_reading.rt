//! The pairs of a table of sequences. OpenType 1.9, cmap, Format 14: Unicode variation sequences.
ghost use Rattle.std.specs.Prelude.{◌≡◌, ◌++◌, [], IfOk, OnErr, OnOk, true};
ghost use Rattle.std.specs.List.{filter_map, cons_option};
ghost use Rattle.sfnt_bytes.specs.Memory.{IsRefused};
ghost use Rattle.variation_sequences.specs.Pairs.{pair_of, sequence_pairs};
ghost use Rattle.variation_sequences.specs.Sequences.{entries_of};
ghost use Rattle.variation_sequences.specs.Strict.{is_strict};
ghost use Rattle.font_theory.specs.SequenceTable.{is_read, sequences_in};

use font_map::{Chart, Mapping};
use sfnt_bytes::{Memory, NoMemory, be16, be32};
use std::alloc::Allocator;
use variation_sequences::{Entries, Pair, Sequences, is_strict, pair_of};

/// How many bytes a subtable has before its records.
const HEADER: usize = 10;

/// How many bytes a mapping has.
const MAPPING: usize = 5;

/// The format of the subtable.
const FORMAT: u16 = 14;

/// A map of codes to glyphs.
pub trait CodeMap {
    ghost use Rattle.std.specs.Prelude.{◌≡◌, ℕ};

    /// The glyph of each code.
    ghost glyph_of: { Self → ℕ → ℕ };

    /// Returns the glyph of a code, 0 where it has none.
    fn glyph_at(&self, code: u32) -> u16
        ensures { result ≡ glyph_of self.now code };
}

impl<'a> CodeMap for Mapping<'a> {
    ghost use Rattle.font_map.specs.Mapping.{mapping_of};

    ghost glyph_of = { λ m. mapping_of m.0 m.1 };

    fn glyph_at(&self, code: u32) -> u16 {
        self.glyph(code)
    }
}

impl<'a, A: Allocator> CodeMap for Chart<'a, A> {
    ghost use Rattle.font_map.specs.Mapping.{mapping_of};

    ghost glyph_of = { λ c. mapping_of c.0 c.1 };

    fn glyph_at(&self, code: u32) -> u16 {
        self.glyph(code)
    }
}

// A map of no code.
#[derive(Drop)]
struct NoMap;

impl CodeMap for NoMap {
    ghost glyph_of = { λ _ _. 0 };

    fn glyph_at(&self, code: u32) -> u16 {
        let _code = code;
        0
    }
}

// Returns whether bytes are a subtable from their start to their end, which is read.
#[tactic(auto, unfolding(font_theory::specs::SequenceTable::is_read))]
fn is_read(bytes: &[u8]) -> bool
    ensures { result ≡ is_read bytes.now }
{
    HEADER <= bytes.len()
        && be16(bytes, 0) == FORMAT
        && be32(bytes, 2) as usize == bytes.len()
        && is_strict(bytes)
}

// Puts a pair after others, if there is one.
fn push_pair<A: Memory>(pairs: &mut Vec<Pair, A>, pair: Option<Pair>) -> Result<(), NoMemory>
    ensures pushed { OnOk result (pairs.new.items ≡ pairs.old.items ++ cons_option pair []) }
    ensures memory { OnErr result (IsRefused A.refuses) }
{
    match pair {
        Some(pair) => A::push(pairs, pair),
        None => Ok(()),
    }
}

// Returns the pairs of entries among so many glyphs.
fn listed<M: CodeMap, A: Memory>(
    alloc: A,
    entries: Entries<'_>,
    map: &M,
    count: u16,
    room: usize,
) -> Result<Vec<Pair, A>, NoMemory>
    ensures pairs { IfOk result (λ pairs. pairs.items
        ≡ filter_map (λ e. pair_of count (M.glyph_of map.now e.code) e) entries.entry) }
    ensures memory { OnErr result (IsRefused A.refuses) }
{
    let mut pairs = alloc.room_for(room)?;
    for entry in entries {
        push_pair(&mut pairs, pair_of(entry, map.glyph_at(entry.code), count))?;
    }
    Ok(pairs)
}

/// Returns the pairs of a table among so many glyphs, none where it is not read.
///
/// # Errors
///
/// `NoMemory` if there is no memory for the pairs.
#[tactic(auto, unfolding(font_theory::specs::SequenceTable::sequences_in))]
pub(crate) fn pairs_in<A: Memory>(
    alloc: A,
    bytes: &[u8],
    count: u16,
) -> Result<Vec<Pair, A>, NoMemory>
    ensures pairs { IfOk result (λ pairs. pairs.items ≡ sequences_in count bytes.now) }
    ensures memory { OnErr result (IsRefused A.refuses) }
{
    if !is_read(bytes) {
        return alloc.room_for(0);
    }
    listed(
        alloc,
        Entries::of(bytes),
        &NoMap,
        count,
        bytes.len() / MAPPING,
    )
}

/// Returns the pairs of a font with this `cmap` and this map, among so many glyphs.
///
/// # Errors
///
/// `NoMemory` if there is no memory for the pairs.
#[tactic(auto, unfolding(variation_sequences::specs::Pairs::sequence_pairs))]
pub(crate) fn font_pairs<M: CodeMap, A: Memory>(
    alloc: A,
    cmap: &[u8],
    map: &M,
    count: u16,
) -> Result<Vec<Pair, A>, NoMemory>
    ensures pairs { IfOk result (λ pairs. pairs.items ≡ sequence_pairs cmap.now (M.glyph_of map.now) count) }
    ensures memory { OnErr result (IsRefused A.refuses) }
{
    match Sequences::open(cmap) {
        None => alloc.room_for(0),
        Some(sequences) => listed(alloc, sequences.entries(), map, count, 0),
    }
}
