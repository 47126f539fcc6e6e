//! A `gvar` that is made anew in memory. OpenType 1.9, gvar: Glyph Variations Table.
ghost use Rattle.std.specs.Prelude.{◌≡◌, ◌<◌, ◌^◌, ◌++◌, [], IfOk, OnErr, OnOk, length, map, slice_index_or};
ghost use Rattle.std.specs.List.{concat};
ghost use Rattle.sfnt_bytes.specs.Memory.{IsRefused};
ghost use Rattle.font_variations.specs.MadeGvar.{data_at, gvar_bytes, offset_bytes, tuples_at, u16_bytes, u32_bytes};

use crate::gvar::HEADER;
use sfnt_bytes::{Memory, NoMemory};

/// The flags of a table whose offsets are long.
const LONG_OFFSETS: u16 = 1;

/// How many bytes a long offset has.
const OFFSET: usize = 4;

// Puts a `u16` after what is made.
fn push_half<A: Memory>(made: &mut Vec<u8, A>, x: u16) -> Result<(), NoMemory>
    ensures made { OnOk result (made.new.items ≡ made.old.items ++ u16_bytes x) }
    ensures memory { OnErr result (IsRefused A.refuses) }
{
    A::append(made, &x.to_be_bytes())
}

// Puts a `u32` after what is made.
fn push_word<A: Memory>(made: &mut Vec<u8, A>, x: u32) -> Result<(), NoMemory>
    ensures made { OnOk result (made.new.items ≡ made.old.items ++ u32_bytes x) }
    ensures memory { OnErr result (IsRefused A.refuses) }
{
    A::append(made, &x.to_be_bytes())
}

// Returns how many bytes all data have.
fn size_of_data(glyph_data: &[&[u8]]) -> usize
    requires { length (concat (map (λ d. d.now) glyph_data.now)) < 2 ^ 32 }
    ensures { result ≡ length (concat (map (λ d. d.now) glyph_data.now)) }
{
    let mut size = 0;
    for bytes in glyph_data {
        size += bytes.len();
    }
    size
}

// Puts the header after what is made. Its first 8 bytes are given, and its flags say that the offsets are long.
fn push_header<A: Memory>(
    made: &mut Vec<u8, A>,
    front: &[u8],
    tuples_at: u32,
    glyphs: u16,
    data_at: u32,
) -> Result<(), NoMemory>
    ensures made { OnOk result (made.new.items ≡ made.old.items ++ front.now ++ u32_bytes tuples_at
        ++ u16_bytes glyphs ++ u16_bytes 1 ++ u32_bytes data_at) }
    ensures memory { OnErr result (IsRefused A.refuses) }
{
    A::append(made, front)?;
    push_word(made, tuples_at)?;
    push_half(made, glyphs)?;
    push_half(made, LONG_OFFSETS)?;
    push_word(made, data_at)
}

// Puts the offsets of data after what is made: the first is 0, and the last is where they end.
#[tactic(auto, unfolding(crate::specs::MadeGvar::offset_bytes))]
fn push_offsets<A: Memory>(made: &mut Vec<u8, A>, glyph_data: &[&[u8]]) -> Result<(), NoMemory>
    requires { length (concat (map (λ d. d.now) glyph_data.now)) < 2 ^ 32 }
    ensures made { OnOk result (made.new.items ≡ made.old.items ++ offset_bytes (map (λ d. d.now) glyph_data.now)) }
    ensures memory { OnErr result (IsRefused A.refuses) }
{
    let mut at = 0;
    for bytes in glyph_data {
        push_word(made, at)?;
        at += bytes.len() as u32;
    }
    push_word(made, at)
}

// Puts data after what is made, end to end.
fn push_data<A: Memory>(made: &mut Vec<u8, A>, glyph_data: &[&[u8]]) -> Result<(), NoMemory>
    ensures made { OnOk result (made.new.items ≡ made.old.items ++ concat (map (λ d. d.now) glyph_data.now)) }
    ensures memory { OnErr result (IsRefused A.refuses) }
{
    for bytes in glyph_data {
        A::append(made, bytes)?;
    }
    Ok(())
}

// Returns the table. All memory is asked for before the first byte is put.
fn made_table<A: Memory>(
    alloc: A,
    front: &[u8],
    shared: &[u8],
    glyph_data: &[&[u8]],
) -> Result<Vec<u8, A>, NoMemory>
    requires front { length front.now ≡ 8 }
    requires glyphs { length glyph_data.now < 2 ^ 16 }
    requires place { data_at shared.now (length glyph_data.now) < 2 ^ 32 }
    requires size { length (concat (map (λ d. d.now) glyph_data.now)) < 2 ^ 32 }
    ensures table { IfOk result (λ table. table.items ≡ gvar_bytes front.now shared.now
        (λ g. slice_index_or (map (λ d. d.now) glyph_data.now) g []) (length glyph_data.now)) }
    ensures memory { OnErr result (IsRefused A.refuses) }
{
    let tuples_at = HEADER + OFFSET * (glyph_data.len() + 1);
    let data_at = tuples_at + shared.len();
    let mut made = alloc.room_for(data_at + size_of_data(glyph_data))?;
    push_header(
        &mut made,
        front,
        tuples_at as u32,
        glyph_data.len() as u16,
        data_at as u32,
    )?;
    push_offsets(&mut made, glyph_data)?;
    A::append(&mut made, shared)?;
    push_data(&mut made, glyph_data)?;
    Ok(made)
}

/// Returns a `gvar` that is made anew of its first 8 bytes, which are its version, `axisCount` and `sharedTupleCount`,
/// of its shared tuples, and of the GlyphVariationData of each glyph in order, which are empty where a glyph does not
/// vary. Its offsets are long, and its data stand end to end, as they are given. OpenType 1.9, gvar: Glyph Variations
/// Table.
///
/// It asks for memory once, for the whole table.
///
/// # Errors
///
/// `NoMemory` if there is no memory for the table.
pub fn make_gvar<A: Memory>(
    alloc: A,
    front: &[u8],
    shared: &[u8],
    glyph_data: &[&[u8]],
) -> Result<Vec<u8, A>, NoMemory>
    requires front { length front.now ≡ 8 }
    requires glyphs { length glyph_data.now < 2 ^ 16 }
    requires place { data_at shared.now (length glyph_data.now) < 2 ^ 32 }
    requires size { length (concat (map (λ d. d.now) glyph_data.now)) < 2 ^ 32 }
    ensures table { IfOk result (λ table. table.items ≡ gvar_bytes front.now shared.now
        (λ g. slice_index_or (map (λ d. d.now) glyph_data.now) g []) (length glyph_data.now)) }
    ensures memory { OnErr result (IsRefused A.refuses) }
{
    made_table(alloc, front, shared, glyph_data)
}
