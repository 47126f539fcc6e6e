//! The names of glyphs, which no cut keeps. OpenType 1.9, post, Version 3.0.
ghost use Rattle.std.specs.Prelude.{◌≡◌, ◌≤◌, ◌++◌, [], drop, length, option_copied, unwrap_or, IfOk, MatchOption, OnErr};
ghost use Rattle.std.specs.Option.{option_map, option_or};
ghost use Rattle.sfnt_bytes.specs.Memory.{IsRefused};
ghost use Rattle.font_theory.specs.Bytes.{bytes32};
ghost use Rattle.font_theory.specs.Parted.{thin_post};
ghost use Rattle.font_write.specs.declared.source.TheConstants.{MAX_TABLE};

use crate::parted_table::{OpenFrom, PartedTable, TablesBySlot};
use font_write::Source;
use sfnt_bytes::{Memory, NoMemory, POST};

/// The length of `post` without names.
const POST_LENGTH: usize = 32;

/// Version 3.0 of `post`.
const WITHOUT_NAMES: [u8; 4] = [0, 3, 0, 0];

// Gives a `post` version 3.0.
fn put_version(post: &mut [u8])
    requires { 4 ≤ length post.old }
    ensures version { post.new ≡ bytes32 0x00030000 ++ drop 4 post.old }
    ensures size { length post.new ≡ length post.old }
{
    post[..WITHOUT_NAMES.len()].copy_from_slice(&WITHOUT_NAMES);
}

// Returns `post` without names, in 32 bytes.
fn unnamed<A: Memory>(alloc: A, post: &[u8]) -> Result<Vec<u8, A>, NoMemory>
    requires { 32 ≤ length post.now }
    ensures table { IfOk result (λ v. v.items ≡ thin_post post.now) }
    ensures memory { OnErr result (IsRefused A.refuses) }
{
    let mut bytes = alloc.copy_of(&post[..POST_LENGTH])?;
    put_version(&mut bytes);
    Ok(bytes)
}

// Returns `post` without names. Where there is none, or it is too short for its fields, that of the font serves, and none
// is returned.
fn post_without_names<A: Memory>(
    alloc: A,
    post: Option<&[u8]>,
) -> Result<Option<Vec<u8, A>>, NoMemory>
    requires { MatchOption post Unit (λ b. length b.now ≤ MAX_TABLE) }
    ensures table { IfOk result (λ o. option_or (option_map (λ v. v.items) o) (option_copied post.entry)
        ≡ option_map thin_post (option_copied post.entry)) }
    ensures small { IfOk result (λ o. length (unwrap_or (option_map (λ v. v.items) o) []) ≤ MAX_TABLE) }
    ensures memory { OnErr result (IsRefused A.refuses) }
{
    match post {
        None => Ok(None),
        Some(post) => {
            if post.len() < POST_LENGTH {
                return Ok(None);
            }
            let bytes = unnamed(alloc, post)?;
            Ok(Some(bytes))
        }
    }
}

// Returns `post` without names, or as it is where it is too short for its fields, where there is one.
fn post_frame<A: Memory>(alloc: A, post: Option<&[u8]>) -> Result<Option<Vec<u8, A>>, NoMemory>
    requires { MatchOption post Unit (λ b. length b.now ≤ MAX_TABLE) }
    ensures table { IfOk result (λ o. option_map (λ v. v.items) o ≡ option_map thin_post (option_copied post.entry)) }
    ensures small { IfOk result (λ o. length (unwrap_or (option_map (λ v. v.items) o) []) ≤ MAX_TABLE) }
    ensures memory { OnErr result (IsRefused A.refuses) }
{
    match post {
        None => Ok(None),
        Some(post) => {
            if post.len() < POST_LENGTH {
                let whole = alloc.copy_of(post)?;
                return Ok(Some(whole));
            }
            let bytes = unnamed(alloc, post)?;
            Ok(Some(bytes))
        }
    }
}

/// A `post` that is open: of its names nothing is read but for how many glyphs they are.
#[derive(Drop)]
pub struct Names {
    count: u16,
}

impl<'t, B: TablesBySlot<'t>> OpenFrom<'t, B> for Names {
    fn open(tables: &B) -> Option<Names> {
        Some(Names {
            count: tables.glyph_count(),
        })
    }
}

impl PartedTable for Names {
    ghost use Rattle.std.specs.Prelude.{◌≡◌, false};
    ghost use Rattle.sfnt_bytes.specs.declared.tag.TheConstants.{POST as POST_SLOT};
    ghost use Rattle.font_theory.specs.Content.{glyph_count};
    ghost use Rattle.font_theory.specs.Parted.{nameless};
    ghost use Rattle.divided_tables.specs.PartedTable.{no_parts};

    ghost slot = { POST_SLOT };

    ghost parting = { nameless };

    ghost refuses = { λ _. false };

    ghost is_open = { λ copied names. names.count ≡ glyph_count copied };

    ghost parts_in = { λ names. no_parts names.count };

    fn has(&self, g: u16) -> bool {
        let _g = g;
        false
    }

    fn has_none(&self, from: u16, to: u16) -> bool {
        let _from = from;
        let _to = to;
        true
    }

    fn is_same(&self, other: &Names, g: u16) -> bool {
        let _other = other;
        let _g = g;
        true
    }

    fn frame<S: Source, A: Memory + Copy>(
        &self,
        alloc: A,
        source: &S,
    ) -> Result<Option<Vec<u8, A>>, NoMemory> {
        post_frame(alloc, source.copied(POST))
    }

    fn kept<S: Source, A: Memory + Copy>(
        &self,
        alloc: A,
        source: &S,
    ) -> Result<Option<Vec<u8, A>>, NoMemory> {
        post_without_names(alloc, source.copied(POST))
    }

    fn united<K: Source, L: Source, A: Memory + Copy>(
        &self,
        other: &Names,
        alloc: A,
        first: &K,
        second: &L,
    ) -> Result<Option<Vec<u8, A>>, NoMemory> {
        let _other = other;
        let _alloc = alloc;
        let _first = first;
        let _second = second;
        Ok(None)
    }
}
