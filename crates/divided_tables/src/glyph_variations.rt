//! The variation data of glyphs, and a `gvar` that is made anew of them. OpenType 1.9, gvar: Glyph Variations Table.
ghost use Rattle.std.specs.Prelude.{◌≡◌, ◌+◌, ◌<◌, ◌≤◌, ℕ, List, [], ◌∷◌, ◌++◌, is_some, length, map, replicate, unwrap_or, if◌then◌else◌, IfOk, IfSome, OnErr, OnOk, false};
ghost use Rattle.std.specs.List.{concat};
ghost use Rattle.std.specs.Option.{option_map};
ghost use Rattle.sfnt_bytes.specs.Memory.{IsRefused};
ghost use Rattle.sfnt_bytes.specs.declared.directory.TheConstants.{MAX_FILE};
ghost use Rattle.font_theory.specs.Content.{glyph_count};
ghost use Rattle.font_theory.specs.Parted.{gvar_with};
ghost use Rattle.font_variations.specs.Gvar.{data_of};
ghost use Rattle.font_variations.specs.MadeGvar.{listed_data};
ghost use Rattle.font_write.specs.declared.source.TheConstants.{MAX_TABLE};
ghost use Rattle.sfnt_bytes.specs.declared.tag.TheConstants.{GVAR as GVAR_SLOT};
ghost use Rattle.divided_tables.specs.PartedTable.{IsFine, is_bad_in};
ghost use Rattle.divided_tables.specs.OpenVariations.{data_in, opened_gvar, united_gvar};

use crate::parted_table::{OpenFrom, PartedTable, TablesBySlot};
use font_variations::{Variations, make_gvar};
use font_write::Source;
use sfnt_bytes::{FVAR, GVAR, Memory, NoMemory};
use std::marker::Model;

// Returns the variation data of a glyph, none where there is no `gvar`.
fn data_in<'t>(variations: &Option<Variations<'t>>, g: u16) -> &'t [u8]
    requires { IfSome variations.now (λ v. g < v.1) }
    ensures { result.now ≡ data_in variations.now g }
{
    match variations {
        Some(variations) => variations.data(g),
        None => &[],
    }
}

// Returns a list that has a slice so many times.
fn repeated<'t, A: Memory>(
    alloc: A,
    slice: &'t [u8],
    count: u16,
) -> Result<Vec<&'t [u8], A>, NoMemory>
    ensures listed { IfOk result (λ listed. map (λ d. d.now) listed.items ≡ replicate count slice.entry.now) }
    ensures memory { OnErr result (IsRefused A.refuses) }
{
    let listed = alloc.filled(slice, count as usize)?;
    Ok(listed)
}

// Lists the data of each glyph that a content keeps, and nothing for the others.
fn kept_data<'t, S: Source, A: Memory>(
    alloc: A,
    source: &S,
    variations: &Variations<'t>,
) -> Result<Vec<&'t [u8], A>, NoMemory>
    requires { variations.now.1 ≡ glyph_count (S.content_of source.now).copied }
    ensures listed { IfOk result (λ listed. map (λ d. d.now) listed.items ≡ listed_data
        (λ g. if is_some ((S.content_of source.now).outline g) then data_of variations.now.0 g else [])
        variations.now.1) }
    ensures memory { OnErr result (IsRefused A.refuses) }
{
    let count = variations.glyph_count();
    let mut listed = repeated(alloc, &[], count)?;
    let mut g = source.next_kept(0);
    while g < count {
        listed[g as usize] = variations.data(g);
        g = source.next_kept(g + 1);
    }
    Ok(listed)
}

// Returns the variation data of a glyph of two contents: those of the first where it keeps the glyph.
fn either_of<'t, K: Source>(
    k: &K,
    first: &Option<Variations<'t>>,
    second: &Option<Variations<'t>>,
    g: u16,
) -> &'t [u8]
    requires first { IfSome first.now (λ v. g < v.1) }
    requires second { IfSome second.now (λ v. g < v.1) }
    ensures { result.now ≡ if is_some ((K.content_of k.now).outline g) then data_in first.now g
        else data_in second.now g }
{
    if k.keeps(g) {
        return data_in(first, g);
    }
    data_in(second, g)
}

// Puts the data of one more glyph after those that are listed.
fn list_more<'t, A: Memory>(listed: &mut Vec<&'t [u8], A>, bytes: &'t [u8]) -> Result<(), NoMemory>
    ensures listed { OnOk result
        (map (λ d. d.now) listed.new.items ≡ map (λ d. d.now) listed.old.items ++ (bytes.now ∷ [])) }
    ensures memory { OnErr result (IsRefused A.refuses) }
{
    A::push(listed, bytes)?;
    Ok(())
}

// Lists the variation data of each glyph of two contents.
fn data_of_both<'t, K: Source, A: Memory>(
    alloc: A,
    k: &K,
    first: &Option<Variations<'t>>,
    second: &Option<Variations<'t>>,
    count: u16,
) -> Result<Vec<&'t [u8], A>, NoMemory>
    requires first { IfSome first.now (λ v. v.1 ≡ count) }
    requires second { IfSome second.now (λ v. v.1 ≡ count) }
    ensures listed { IfOk result (λ listed. map (λ d. d.now) listed.items ≡ listed_data
        (λ g. if is_some ((K.content_of k.now).outline g) then data_in first.now g else data_in second.now g)
        count) }
    ensures memory { OnErr result (IsRefused A.refuses) }
{
    let mut listed = alloc.room_for(usize::from(count))?;
    for g in 0..count {
        list_more(&mut listed, either_of(k, first, second, g))?;
    }
    Ok(listed)
}

// Returns a `gvar` that is made anew, with other data for its glyphs.
fn with_data<A: Memory>(
    alloc: A,
    variations: &Variations<'_>,
    listed: &[&[u8]],
) -> Result<Vec<u8, A>, NoMemory>
    requires short { length variations.now.0 ≤ MAX_FILE }
    requires few { length listed.now < 65536 }
    requires fits { length (concat (map (λ d. d.now) listed.now)) ≤ MAX_FILE + MAX_FILE }
    ensures table { IfOk result (λ gvar. (of_glyph : ℕ → List ℕ) (n : ℕ) →
        map (λ d. d.now) listed.now ≡ listed_data of_glyph n →
        gvar.items ≡ gvar_with of_glyph n variations.now.0) }
    ensures small { IfOk result (λ gvar. length gvar.items ≤ MAX_TABLE) }
    ensures memory { OnErr result (IsRefused A.refuses) }
{
    let gvar = make_gvar(
        alloc,
        variations.front(),
        variations.shared_tuples(),
        listed,
    )?;
    Ok(gvar)
}

// Returns a `gvar` with the data of the glyphs that a content keeps, and none of the others.
fn kept_gvar<S: Source, A: Memory + Copy>(
    alloc: A,
    source: &S,
    variations: &Variations<'_>,
) -> Result<Vec<u8, A>, NoMemory>
    requires count { variations.now.1 ≡ glyph_count (S.content_of source.now).copied }
    requires short { length variations.now.0 ≤ MAX_FILE }
    ensures table { IfOk result (λ gvar. gvar.items ≡ gvar_with
        (λ g. if is_some ((S.content_of source.now).outline g) then data_of variations.now.0 g else [])
        variations.now.1 variations.now.0) }
    ensures small { IfOk result (λ gvar. length gvar.items ≤ MAX_TABLE) }
    ensures memory { OnErr result (IsRefused A.refuses) }
{
    let _accepted = variations.glyph_count();
    let listed = kept_data(alloc, source, variations)?;
    with_data(alloc, variations, &listed)
}

// Returns a `gvar` without the data of its glyphs.
fn gvar_frame<A: Memory + Copy>(
    alloc: A,
    variations: &Variations<'_>,
) -> Result<Vec<u8, A>, NoMemory>
    requires { length variations.now.0 ≤ MAX_FILE }
    ensures table { IfOk result (λ gvar. gvar.items ≡ gvar_with (λ _. []) variations.now.1 variations.now.0) }
    ensures small { IfOk result (λ gvar. length gvar.items ≤ MAX_TABLE) }
    ensures memory { OnErr result (IsRefused A.refuses) }
{
    let listed = repeated(alloc, &[], variations.glyph_count())?;
    with_data(alloc, variations, &listed)
}

// Returns the `gvar` of the union of two contents with as many glyphs, where the first has one.
fn gvar_of_both<K: Source, L: Source, A: Memory + Copy>(
    alloc: A,
    k: &K,
    l: &L,
    first: &Option<Variations<'_>>,
    second: &Option<Variations<'_>>,
) -> Result<Option<Vec<u8, A>>, NoMemory>
    requires first { IsFine GVAR_SLOT (K.content_of k.now).copied }
    requires second { IsFine GVAR_SLOT (L.content_of l.now).copied }
    requires first_open { first.now ≡ opened_gvar (K.content_of k.now).copied }
    requires second_open { second.now ≡ opened_gvar (L.content_of l.now).copied }
    requires count { glyph_count (K.content_of k.now).copied ≡ glyph_count (L.content_of l.now).copied }
    ensures table { IfOk result (λ o.
        option_map (λ v. v.items) o ≡ united_gvar (K.content_of k.now) (L.content_of l.now)) }
    ensures small { IfOk result (λ o. length (unwrap_or (option_map (λ v. v.items) o) []) ≤ MAX_TABLE) }
    ensures memory { OnErr result (IsRefused A.refuses) }
{
    let Some(variations) = first else {
        return Ok(None);
    };
    let listed = data_of_both(alloc, k, first, second, k.glyph_count())?;
    let gvar = with_data(alloc, variations, &listed)?;
    Ok(Some(gvar))
}

/// The variation data of the glyphs of a font, where it has a `gvar`.
#[derive(Drop)]
pub struct GlyphVariations<'t> {
    variations: Option<Variations<'t>>,
    count: u16,
}

// Its value is the bytes of the table, and the number of glyphs.
impl<'t> Model for GlyphVariations<'t> {
    ghost use Rattle.divided_tables.specs.OpenVariations.{AreOfCount, OpenVariations};

    ghost Value = { OpenVariations };

    ghost view = { λ v. record {
      gvar = v.variations;
      count = v.count;
    } };

    ghost invariant = { λ v. AreOfCount (record {
      gvar = v.variations;
      count = v.count;
    }) };
}

impl<'t, B: TablesBySlot<'t>> OpenFrom<'t, B> for GlyphVariations<'t> {
    fn open(tables: &B) -> Option<GlyphVariations<'t>> {
        let count = tables.glyph_count();
        let Some(gvar) = tables.table(GVAR) else {
            return Some(GlyphVariations {
                variations: None,
                count,
            });
        };
        let Some(variations) = Variations::open(gvar, tables.table(FVAR), count) else {
            return None;
        };
        Some(GlyphVariations {
            variations: Some(variations),
            count,
        })
    }
}

impl<'t> PartedTable for GlyphVariations<'t> {
    ghost use Rattle.sfnt_bytes.specs.declared.tag.TheConstants.{GVAR as GVAR_SLOT};
    ghost use Rattle.font_theory.specs.Parted.{variations};
    ghost use Rattle.divided_tables.specs.PartedTable.{is_bad_in};
    ghost use Rattle.divided_tables.specs.OpenVariations.{AreVariationsOf, variations_parts};

    ghost slot = { GVAR_SLOT };

    ghost parting = { variations };

    ghost refuses = { is_bad_in GVAR_SLOT };

    ghost is_open = { AreVariationsOf };

    ghost parts_in = { variations_parts };

    fn has(&self, g: u16) -> bool {
        !data_in(&self.variations, g).is_empty()
    }

    fn has_none(&self, from: u16, to: u16) -> bool {
        let _from = from;
        let _to = to;
        self.variations.is_none()
    }

    fn is_same(&self, other: &GlyphVariations<'t>, g: u16) -> bool {
        data_in(&self.variations, g) == data_in(&other.variations, g)
    }

    fn frame<S: Source, A: Memory + Copy>(
        &self,
        alloc: A,
        source: &S,
    ) -> Result<Option<Vec<u8, A>>, NoMemory> {
        let _source = source;
        match &self.variations {
            None => Ok(None),
            Some(variations) => {
                let gvar = gvar_frame(alloc, variations)?;
                Ok(Some(gvar))
            }
        }
    }

    fn kept<S: Source, A: Memory + Copy>(
        &self,
        alloc: A,
        source: &S,
    ) -> Result<Option<Vec<u8, A>>, NoMemory> {
        match &self.variations {
            None => Ok(None),
            Some(variations) => {
                let _accepted = variations.glyph_count();
                let gvar = kept_gvar(alloc, source, variations)?;
                Ok(Some(gvar))
            }
        }
    }

    fn united<K: Source, L: Source, A: Memory + Copy>(
        &self,
        other: &GlyphVariations<'t>,
        alloc: A,
        first: &K,
        second: &L,
    ) -> Result<Option<Vec<u8, A>>, NoMemory> {
        gvar_of_both(alloc, first, second, &self.variations, &other.variations)
    }
}
