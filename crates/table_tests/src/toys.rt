//! A divided table of the tests' own, which shows what one more costs: a byte that is of no glyph, and then a byte of each
//! glyph.
ghost use Rattle.std.specs.Prelude.{◌≡◌, ◌+◌, ◌<◌, ◌&&◌, [], is_some, length, slice_index, if◌then◌else◌, IfOk, OnErr};
ghost use Rattle.sfnt_bytes.specs.Memory.{IsRefused};
ghost use Rattle.table_tests.specs.Toys.{toy, toy_byte, with_toys};

use divided_tables::{OpenFrom, PartedTable, TablesBySlot};
use font_write::Source;
use sfnt_bytes::{Memory, NoMemory};
use std::marker::Model;

/// The slot that is taken for its own: that of `cvt `.
pub const TOYS: usize = 2;

// Tells whether a content keeps a glyph.
fn is_kept<S: Source>(source: &S, g: usize) -> bool
    ensures { result ≡ is_some ((S.content_of source.now).outline g) }
{
    source.recall_laws();
    g < usize::from(source.glyph_count()) && source.keeps(g as u16)
}

// Returns a byte of a table with the toys of the kept glyphs, or of none.
fn byte_at<S: Source>(source: &S, table: &[u8], any: bool, j: usize) -> u8
    requires { j < length table.now }
    ensures { result ≡ toy_byte (λ g. if any && is_some ((S.content_of source.now).outline g)
        then toy (slice_index table.now (g + 1)) else []) table.now j }
{
    if j == 0 {
        return table[0];
    }
    if any && is_kept(source, j - 1) {
        return table[j];
    }
    0
}

// Returns a table with the toys of the kept glyphs, or of none.
fn made<S: Source, A: Memory>(
    alloc: A,
    source: &S,
    table: &[u8],
    any: bool,
) -> Result<Vec<u8, A>, NoMemory>
    ensures table { IfOk result (λ v. v.items ≡ with_toys (λ g. if any && is_some ((S.content_of source.now).outline g)
        then toy (slice_index table.now (g + 1)) else []) table.now) }
    ensures memory { OnErr result (IsRefused A.refuses) }
{
    let mut bytes = alloc.filled(0u8, table.len())?;
    for j in 0..table.len() {
        bytes[j] = byte_at(source, table, any, j);
    }
    Ok(bytes)
}

/// A table of toys, empty where there is none.
#[derive(Drop)]
pub struct Toys<'t> {
    bytes: &'t [u8],
    count: u16,
}

// Its value is its bytes, and the number of glyphs.
impl<'t> Model for Toys<'t> {
    ghost use Rattle.table_tests.specs.Toys.{OpenToys};

    ghost Value = { OpenToys };

    ghost view = { λ t. record {
      bytes = t.bytes.now;
      count = t.count;
    } };
}

impl<'t> Toys<'t> {
    // Returns the byte of a glyph.
    fn byte(&self, g: u16) -> u8
        ensures { result ≡ slice_index self.now.bytes (g + 1) }
    {
        let at = usize::from(g) + 1;
        if at < self.bytes.len() {
            self.bytes[at]
        } else {
            0
        }
    }
}

impl<'t, B: TablesBySlot<'t>> OpenFrom<'t, B> for Toys<'t> {
    fn open(tables: &B) -> Option<Toys<'t>> {
        Some(Toys {
            bytes: tables.table(TOYS).unwrap_or(&[]),
            count: tables.glyph_count(),
        })
    }
}

impl<'t> PartedTable for Toys<'t> {
    ghost use Rattle.std.specs.Prelude.{false};
    ghost use Rattle.table_tests.specs.Toys.{AreToysOf, toys, toys_parts};
    ghost use Rattle.table_tests.specs.declared.toys.TheConstants.{TOYS as TOYS_SLOT};

    ghost slot = { TOYS_SLOT };

    ghost parting = { toys };

    ghost refuses = { λ _. false };

    ghost is_open = { AreToysOf };

    ghost parts_in = { toys_parts };

    fn has(&self, g: u16) -> bool {
        self.byte(g) != 0
    }

    fn has_none(&self, from: u16, to: u16) -> bool {
        let _from = from;
        let _to = to;
        false
    }

    fn is_same(&self, other: &Toys<'t>, g: u16) -> bool {
        self.byte(g) == other.byte(g)
    }

    fn frame<S: Source, A: Memory + Copy>(
        &self,
        alloc: A,
        source: &S,
    ) -> Result<Option<Vec<u8, A>>, NoMemory> {
        match source.copied(TOYS) {
            None => Ok(None),
            Some(table) => {
                let bytes = made(alloc, source, table, false)?;
                Ok(Some(bytes))
            }
        }
    }

    fn kept<S: Source, A: Memory + Copy>(
        &self,
        alloc: A,
        source: &S,
    ) -> Result<Option<Vec<u8, A>>, NoMemory> {
        match source.copied(TOYS) {
            None => Ok(None),
            Some(table) => {
                let bytes = made(alloc, source, table, true)?;
                Ok(Some(bytes))
            }
        }
    }

    fn united<K: Source, L: Source, A: Memory + Copy>(
        &self,
        other: &Toys<'t>,
        alloc: A,
        first: &K,
        second: &L,
    ) -> Result<Option<Vec<u8, A>>, NoMemory> {
        let _other = other;
        let _alloc = alloc;
        let _first = first;
        let _second = second;
        Ok(None)
    }
}
