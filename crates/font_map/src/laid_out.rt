//! A mapping laid out as a list of glyphs, one for each code. OpenType 1.9, cmap: Character to Glyph
//! Index Mapping Table.
ghost use Rattle.std.specs.Prelude.{◌≡◌, ◌≢◌, ◌+◌, ◌*◌, ◌<◌, ◌≤◌, ℕ, IfOk, MatchOption, OnErr, drop, length, slice_index};
ghost use Rattle.sfnt_bytes.specs.Memory.{IsRefusedUpTo};
ghost use Rattle.codes.specs.CharacterMap.{clipped};
ghost use Rattle.cmap_subtables.specs.Format12.{HasGroups, group_count, group_glyph, groups_of};
ghost use Rattle.cmap_subtables.specs.Format4.{HasSegments, segment_glyph};
ghost use Rattle.font_map.specs.Mapping.{mapping_of};
ghost use Rattle.codes.specs.Runs.{IsPiece, NoRun};
ghost use Rattle.codes.specs.declared.code_points.TheConstants.{CODES};
ghost use Rattle.font_map.specs.Inside.{NoneFree, IsFirstFree, IsLaid, IsSkip};

use crate::mapping::Mapping;
use cmap_subtables::{count_groups, glyph_at, group_at, walk_place};
use codes::{CODES, LAST_CODE, Pieces, Run, clip};
use sfnt_bytes::{Memory, NoMemory};
use std::alloc::{Allocator, Global};
use std::marker::Model;

/// Stands for the glyph of a code that is still free while groups are laid out. No code gets it as its
/// glyph: a glyph is below the number of glyphs, which is at most 0xFFFF.
const FREE: u16 = 0xFFFF;

/// How many codes a block has.
const BLOCK: u32 = 16;

// Returns the first free code from `from` on below `stop`, or `stop` where there is none.
fn free_below(glyphs: &[u16], from: u32, stop: u32) -> u32
    requires order { from ≤ stop }
    requires within { stop ≤ length glyphs.now }
    ensures small { result ≤ stop }
    ensures first { IsFirstFree glyphs.now from stop result }
{
    for code in from..stop {
        if glyphs[code as usize] == FREE {
            return code;
        }
    }
    stop
}

// Returns a code above the taken code `at`, with no free code between them. `skip` says for each block
// how many blocks from it on are known to have no free code, 0 where nothing is known; these numbers grow
// as they are followed, so that a long row of taken codes is passed in a few steps the next time. In a
// block of which nothing is known, only codes below `stop` are looked at.
fn pass_taken(glyphs: &[u16], skip: &mut [u32], at: u32, stop: u32) -> u32
    requires skips { IsSkip glyphs.now skip.old }
    requires below { at < stop }
    requires within { stop ≤ CODES }
    requires taken { slice_index glyphs.now at ≢ 0xFFFF }
    ensures skips { IsSkip glyphs.now skip.new }
    ensures above { at < result }
    ensures small { result ≤ CODES }
    ensures taken { NoneFree glyphs.now at result }
{
    let block = at / BLOCK;
    if skip[block as usize] == 0 {
        let end = BLOCK * (block + 1);
        let code = free_below(glyphs, at + 1, end.min(stop));
        if code < end || at % BLOCK != 0 {
            return code;
        }
        skip[block as usize] = 1;
    }
    let next = block + skip[block as usize];
    skip[block as usize] += skip[next as usize];
    BLOCK * (block + skip[block as usize])
}

// Returns the first free code from `from` on below `stop`. Where there is none, the answer is `stop` or
// a code above it.
fn free_from(glyphs: &[u16], skip: &mut [u32], from: u32, stop: u32) -> u32
    requires skips { IsSkip glyphs.now skip.old }
    requires within { stop ≤ CODES }
    ensures skips { IsSkip glyphs.now skip.new }
    ensures first { IsFirstFree glyphs.now from stop result }
{
    let mut at = from;
    while at < stop && glyphs[at as usize] != FREE {
        at = pass_taken(glyphs, skip, at, stop);
    }
    at
}

// Gives their glyphs to the codes of group `i` that no group listed before it contains.
fn lay_group(s: &[u8], i: usize, count: u16, glyphs: &mut [u16], skip: &mut [u32])
    requires room { HasGroups s.now }
    requires there { i < group_count s.now }
    requires laid { IsLaid s.now count (drop i (groups_of s.now)) glyphs.old }
    requires skips { IsSkip glyphs.old skip.old }
    ensures laid { IsLaid s.now count (drop (i + 1) (groups_of s.now)) glyphs.new }
    ensures skips { IsSkip glyphs.new skip.new }
{
    let group = group_at(s, i);
    let stop = group.last.min(LAST_CODE) + 1;
    let mut code = free_from(glyphs, skip, group.first, stop);
    while code < stop {
        glyphs[code as usize] = clip(group.glyph_along(code), count, code);
        code = free_from(glyphs, skip, code + 1, stop);
    }
}

// Takes the codes that are still free, and gives them no glyph.
fn unmap_free(glyphs: &mut [u16])
    requires codes { length glyphs.old ≡ CODES }
    ensures codes { length glyphs.new ≡ CODES }
    ensures free { (c : ℕ) → slice_index glyphs.old c ≡ 0xFFFF → slice_index glyphs.new c ≡ 0 }
    ensures taken { (c : ℕ) → slice_index glyphs.old c ≢ 0xFFFF →
        slice_index glyphs.new c ≡ slice_index glyphs.old c }
{
    for code in 0..CODES as usize {
        if glyphs[code] == FREE {
            glyphs[code] = 0;
        }
    }
}

// Gives each code its glyph, group by group in the order listed.
pub(crate) fn lay_groups(s: &[u8], count: u16, glyphs: &mut [u16], skip: &mut [u32])
    requires room { HasGroups s.now }
    requires codes { length glyphs.old ≡ CODES }
    requires blocks { length skip.old ≡ 0x11001 }
    requires unknown { (b : ℕ) → slice_index skip.old b ≡ 0 }
    ensures codes { length glyphs.new ≡ CODES }
    ensures map { (c : ℕ) → slice_index glyphs.new c ≡ clipped count (group_glyph s.now) c }
{
    glyphs.fill(FREE);
    for i in 0..count_groups(s) {
        lay_group(s, i, count, glyphs, skip);
    }
    unmap_free(glyphs);
}

// Gives each code its glyph, code by code. The first segment that ends at a code or above it never
// comes earlier for a later code, so each segment is passed once.
pub(crate) fn lay_segments(s: &[u8], count: u16, glyphs: &mut [u16])
    requires room { HasSegments s.now }
    requires codes { length glyphs.old ≡ CODES }
    requires unmapped { (c : ℕ) → slice_index glyphs.old c ≡ 0 }
    ensures codes { length glyphs.new ≡ CODES }
    ensures map { (c : ℕ) → slice_index glyphs.new c ≡ clipped count (segment_glyph s.now) c }
{
    let mut place = 0;
    for code in 0..0x10000 {
        place = walk_place(s, place, code);
        glyphs[code as usize] = glyph_at(s, place, count, code);
    }
}

// Returns glyphs for `count` codes, none of which is mapped.
pub(crate) fn unmapped<A: Memory>(alloc: A, count: usize) -> Result<Vec<u16, A>, NoMemory>
    ensures count { IfOk result (λ glyphs. length glyphs.items ≡ count) }
    ensures unmapped { IfOk result (λ glyphs. (c : ℕ) → slice_index glyphs.items c ≡ 0) }
    ensures memory { OnErr result (IsRefusedUpTo A.refuses (2 * count)) }
{
    alloc.filled(0, count)
}

// Returns numbers for `count` blocks, of none of which anything is known.
pub(crate) fn no_skips<A: Memory>(alloc: A, count: usize) -> Result<Vec<u32, A>, NoMemory>
    ensures count { IfOk result (λ skip. length skip.items ≡ count) }
    ensures unknown { IfOk result (λ skip. (b : ℕ) → slice_index skip.items b ≡ 0) }
    ensures memory { OnErr result (IsRefusedUpTo A.refuses (4 * count)) }
{
    alloc.filled(0, count)
}

// Returns the least mapped code from `from` on, as a run of its own: one that went on to the end of its
// run would be walked again for each wanted range inside that run.
fn code_from(glyphs: &[u16], from: u32) -> Option<Run>
    requires { length glyphs.now ≡ CODES }
    ensures { MatchOption result (NoRun (slice_index glyphs.now) from)
        (IsPiece (slice_index glyphs.now) from) }
{
    for code in from..CODES {
        let glyph = glyphs[code as usize];
        if glyph != 0 {
            return Some(Run::of_code(code, glyph));
        }
    }
    None
}

/// A mapping laid out as a list of glyphs, one for each code.
///
/// It is made in one walk over the segments or groups, in whatever order they stand, and is then walked
/// code by code.
#[derive(Drop)]
pub(crate) struct LaidOut<A: Allocator = Global> {
    glyphs: Vec<u16, A>,
}

// Its value is the list of glyphs of all codes, 0 for a code that is not mapped.
impl<A: Allocator> Model for LaidOut<A> {
    ghost use Rattle.std.specs.Prelude.{◌≡◌, ℕ, List, length};
    ghost use Rattle.codes.specs.declared.code_points.TheConstants.{CODES};

    ghost Value = { List ℕ };

    ghost view = { λ l. l.glyphs.items };

    ghost invariant = { λ l. length l.glyphs.items ≡ CODES };
}

impl<A: Allocator> LaidOut<A> {
    /// Returns the glyph of a code, 0 where it is not mapped.
    pub(crate) fn glyph(&self, code: u32) -> u16
        ensures { result ≡ slice_index self.now code }
    {
        if code <= LAST_CODE {
            self.glyphs[code as usize]
        } else {
            0
        }
    }
}

impl<A: Memory + Copy> LaidOut<A> {
    /// Lays out a mapping: a glyph for each code.
    ///
    /// # Errors
    ///
    /// `NoMemory` if out of memory.
    pub(crate) fn of(alloc: A, mapping: &Mapping<'_>) -> Result<LaidOut<A>, NoMemory>
        ensures map { IfOk result (λ laid_out. slice_index laid_out ≡ mapping_of mapping.now.0 mapping.now.1) }
        ensures memory { OnErr result (IsRefusedUpTo A.refuses (2 * CODES)) }
    {
        let mut glyphs = unmapped(alloc, CODES as usize)?;
        mapping.lay_out(alloc, &mut glyphs)?;
        Ok(LaidOut { glyphs })
    }
}

impl<A: Allocator> Pieces for LaidOut<A> {
    ghost use Rattle.std.specs.Prelude.{slice_index};

    ghost map_of = { λ glyphs. slice_index glyphs };

    fn piece(&self, from: u32) -> Option<Run> {
        code_from(&self.glyphs, from)
    }
}
