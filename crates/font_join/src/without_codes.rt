//! How many bytes a file has beside the groups of its `cmap`, and whether it is too large. OpenType 1.9,
//! cmap, Format 12: Segmented coverage.
ghost use Rattle.std.specs.Prelude.{◌≡◌, ◌+◌, ◌*◌, ◌≤◌, length, MatchOption};
ghost use Rattle.sfnt_bytes.specs.declared.directory.TheConstants.{MAX_FILE};
ghost use Rattle.map_union.specs.RunLists.{map_in};
ghost use Rattle.font_write.specs.WholeFile.{IsTooLarge};
ghost use Rattle.font_join.specs.Union.{listed_outline};
ghost use Rattle.codes.specs.Runs.{groups_from};
ghost use Rattle.font_theory.specs.Content.{glyph_count};
ghost use Rattle.font_theory.specs.File.{current_writing, file};
ghost use Rattle.font_write.specs.Parts.{glyf_to};

use crate::taken_outlines::Outlines;
use font_map::Run;
use font_write::{CURRENT, Counts, Source, counted_size, file_size};
use map_union::UnionMap;
use sfnt_bytes::MAX_FILE;
use std::alloc::Allocator;

// A content without its codes.
#[derive(Drop)]
struct WithoutCodes<'s, S: Source> {
    source: &'s S,
}

impl<'s, S: Source> Source for WithoutCodes<'s, S> {
    ghost use Rattle.font_join.specs.Inside.{without_codes};

    ghost content_of = { λ w. without_codes (S.content_of w.source.now) };

    fn recall_laws(&self) {
        self.source.recall_laws();
    }

    fn copied(&self, slot: usize) -> Option<&[u8]> {
        self.source.copied(slot)
    }

    fn head(&self) -> &[u8] {
        self.source.head()
    }

    fn glyph_count(&self) -> u16 {
        self.source.glyph_count()
    }

    fn next_run(&self, _from: u32) -> Option<Run> {
        None
    }

    fn keeps(&self, g: u16) -> bool {
        self.source.keeps(g)
    }

    fn outline_of(&self, g: u16) -> &[u8] {
        self.source.outline_of(g)
    }
}

// Returns how many bytes the file of a content has beside its groups, each of which has 12 more. The
// outlines, which have this number of bytes, are not gone over.
fn size_without_codes<S: Source>(source: &S, outlines: usize) -> u64
    requires outlines { outlines ≡ length (glyf_to (S.content_of source.now)
        (glyph_count (S.content_of source.now).copied)) }
    requires small { outlines ≤ 0x0001_0000_0000_0000 }
    ensures { length (file current_writing (S.content_of source.now)) ≡ result
        + 12 * length (groups_from (S.content_of source.now).map 0) }
{
    source.recall_laws();
    let counts = Counts {
        groups: 0,
        group_sum: 0,
        outlines,
    };
    counted_size(&WithoutCodes { source }, CURRENT, counts).bytes
}

/// Returns how many bytes the file of a content with this map and these outlines has, where these are too
/// many. The outlines are counted as they are added and the groups are at most those of both lists, so that
/// a step goes over neither but where the size is close to the limit.
pub(crate) fn size_if_too_large<S: Source, A: Allocator>(
    source: &S,
    map: &UnionMap<A>,
    outlines: &Outlines<'_, A>,
) -> Option<u64>
    requires map { (S.content_of source.now).map ≡ map_in map.now }
    requires outlines { (S.content_of source.now).outline ≡ listed_outline outlines.now }
    requires count { length outlines.now ≡ glyph_count (S.content_of source.now).copied }
    ensures { MatchOption result (length (file current_writing (S.content_of source.now)) ≤ MAX_FILE)
        (IsTooLarge (file current_writing (S.content_of source.now))) }
{
    let beside = size_without_codes(source, outlines.bytes() as usize);
    if beside.saturating_add(12 * u64::from(map.most_groups())) <= MAX_FILE {
        return None;
    }
    let size = file_size(source, CURRENT).bytes;
    if size > MAX_FILE { Some(size) } else { None }
}
