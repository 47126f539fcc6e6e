//! `loca`: where each outline begins, and where the last one ends. OpenType 1.9, loca.
ghost use Rattle.std.specs.Prelude.{◌≡◌, ◌+◌, ◌-◌, ◌*◌, ◌<◌, ◌≤◌, ◌++◌, length, take};
ghost use Rattle.sfnt_bytes.specs.Sums.{checksum_of};
ghost use Rattle.sfnt_bytes.specs.declared.directory.TheConstants.{MAX_FILE};
ghost use Rattle.font_theory.specs.Bytes.{bytes32};
ghost use Rattle.font_theory.specs.Content.{glyph_count};
ghost use Rattle.font_write.specs.Parts.{glyf_to};
ghost use Rattle.font_write.specs.Inside.{IsWalk, all_offsets, all_outlines, loca_to};
ghost use Rattle.font_write.specs.declared.bytes.TheConstants.{BLOCK};
ghost use Rattle.font_write.specs.Trace.{HasRoom, Sends};

use crate::bytes::{BLOCK, put_word, send_word};
use crate::made_glyf::outline_length;
use crate::sink::{Sink, Stopped};
use crate::source::Source;

// The number of glyphs that a block has room for.
const GLYPHS: u16 = 256;

/// Returns the length of `loca`.
pub(crate) fn loca_length<S: Source>(source: &S) -> u32
    ensures exact { result ≡ length (all_offsets (S.content_of source.now)) }
    ensures small { result ≤ 0x0004_0000 }
{
    4 * (u32::from(source.glyph_count()) + 1)
}

/// Returns the checksum of `loca`.
pub(crate) fn sum_loca<S: Source>(source: &S) -> u32
    requires small { length (all_outlines (S.content_of source.now)) ≤ MAX_FILE }
    ensures { result ≡ checksum_of (all_offsets (S.content_of source.now)) }
{
    let mut offset: u32 = 0;
    let mut sum: u32 = 0;
    let count = source.glyph_count();
    let mut g = source.next_kept(0);
    while g < count {
        offset += outline_length(source, g);
        let next = source.next_kept(g + 1);
        // One offset stands for all glyphs up to the next one that is kept.
        sum = sum.wrapping_add(offset.wrapping_mul(u32::from(next - g)));
        g = next;
    }
    sum
}

// How many bytes the outlines of the glyphs below one have, and the least glyph from that one on that is
// kept.
#[derive(Clone, Copy)]
struct Walk {
    offset: u32,
    next: u16,
}

// Goes on after a glyph.
fn pass_glyph<S: Source>(source: &S, g: u16, walk: Walk) -> Walk
    requires low { g < 65535 }
    requires walk { IsWalk (S.content_of source.now) g walk }
    requires within { g < glyph_count (S.content_of source.now).copied }
    requires small { length (all_outlines (S.content_of source.now)) ≤ MAX_FILE }
    ensures { IsWalk (S.content_of source.now) (g + 1) result }
{
    if g < walk.next {
        return walk;
    }
    Walk {
        offset: walk.offset + outline_length(source, g),
        next: source.next_kept(g + 1),
    }
}

// Gathers the offsets after the glyphs from one on up to another at the front of a block: a sink that
// is asked for each of them alone takes several times as long. Returns where the walk stands then.
fn gather_offsets<S: Source>(
    source: &S,
    from: u16,
    to: u16,
    start: Walk,
    block: &mut [u8; BLOCK],
) -> Walk
    requires order { from ≤ to }
    requires few { 4 * (to - from) ≤ BLOCK }
    requires within { to ≤ glyph_count (S.content_of source.now).copied }
    requires start { IsWalk (S.content_of source.now) from start }
    requires small { length (all_outlines (S.content_of source.now)) ≤ MAX_FILE }
    ensures end { IsWalk (S.content_of source.now) to result }
    ensures gathered { loca_to (S.content_of source.now) from ++ take (4 * (to - from)) block.new ≡ loca_to
        (S.content_of source.now) to }
{
    let mut walk = start;
    for g in from..to {
        walk = pass_glyph(source, g, walk);
        put_word(block, 4 * (g - from) as usize, walk.offset);
    }
    walk
}

/// Sends `loca`.
pub(crate) fn send_loca<S: Source, K: Sink>(source: &S, sink: &mut K) -> Result<(), Stopped>
    requires room { HasRoom (K.trace sink.old) (length (all_offsets (S.content_of source.now))) }
    requires small { length (all_outlines (S.content_of source.now)) ≤ MAX_FILE }
    ensures { Sends (K.trace sink.old) (K.trace sink.new) (all_offsets (S.content_of source.now)) result }
{
    let mut block = [0; BLOCK];
    let mut walk = Walk {
        offset: 0,
        next: source.next_kept(0),
    };
    let mut from: u16 = 0;
    let count = source.glyph_count();
    send_word(0, sink)?;
    while from < count {
        let to = from + (count - from).min(GLYPHS);
        walk = gather_offsets(source, from, to, walk, &mut block);
        sink.take(&block[..4 * (to - from) as usize])?;
        from = to;
    }
    Ok(())
}
