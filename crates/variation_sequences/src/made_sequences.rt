//! A subtable that is made of pairs. OpenType 1.9, cmap, Format 14: Unicode variation sequences.
ghost use Rattle.std.specs.Prelude.{◌≡◌, ◌+◌, ◌*◌, ◌<◌, ◌≤◌, ◌^◌, ◌++◌, ◌∷◌, IfOk, OnErr, OnOk, length, nat_eq};
ghost use Rattle.std.specs.List.{flat_map, prefix_len};
ghost use Rattle.sfnt_bytes.specs.Memory.{IsRefused};
ghost use Rattle.variation_sequences.specs.Written.{HaveSmallNumbers, grouped, mapping_bytes, placed, record_bytes, subtable_bytes, subtable_size, mappings_bytes, bytes_of_u16, bytes_of_u24, bytes_of_u32};
ghost use Rattle.variation_sequences.specs.declared.strict.TheConstants.{MAX_ENTRIES};

use crate::lists::{COUNT, HEADER, MAPPING, RECORD};
use crate::variant::Pair;
use sfnt_bytes::{Memory, NoMemory};

/// The format of the subtable.
const FORMAT: u16 = 14;

// Puts a `u16` after what is made.
fn push_u16<A: Memory>(made: &mut Vec<u8, A>, x: u16) -> Result<(), NoMemory>
    ensures made { OnOk result (made.new.items ≡ made.old.items ++ bytes_of_u16 x) }
    ensures memory { OnErr result (IsRefused A.refuses) }
{
    A::append(made, &x.to_be_bytes())
}

// Puts a `u24` after what is made.
fn push_u24<A: Memory>(made: &mut Vec<u8, A>, x: u32) -> Result<(), NoMemory>
    requires { x < 2 ^ 24 }
    ensures made { OnOk result (made.new.items ≡ made.old.items ++ bytes_of_u24 x) }
    ensures memory { OnErr result (IsRefused A.refuses) }
{
    let bytes = [(x / 65536) as u8, (x / 256 % 256) as u8, (x % 256) as u8];
    A::append(made, &bytes)
}

// Puts a `u32` after what is made.
fn push_u32<A: Memory>(made: &mut Vec<u8, A>, x: u32) -> Result<(), NoMemory>
    ensures made { OnOk result (made.new.items ≡ made.old.items ++ bytes_of_u32 x) }
    ensures memory { OnErr result (IsRefused A.refuses) }
{
    A::append(made, &x.to_be_bytes())
}

// Returns how many pairs in front have a selector.
fn count_in_front(pairs: &[Pair], selector: u32) -> usize
    ensures value { result ≡ prefix_len (λ p. nat_eq p.selector selector) pairs.now }
    ensures within { result ≤ length pairs.now }
{
    for (i, pair) in pairs.iter().enumerate() {
        if pair.selector != selector {
            return i;
        }
    }
    pairs.len()
}

// Splits off the pairs in front that have one selector.
fn split_group(pairs: &[Pair]) -> (&[Pair], &[Pair])
    requires { 0 < length pairs.now }
    ensures groups { grouped pairs.now ≡ result.0.now ∷ grouped result.1.now }
    ensures size { length result.0.now + length result.1.now ≡ length pairs.now }
    ensures some { 0 < length result.0.now }
    ensures small { HaveSmallNumbers pairs.now → HaveSmallNumbers result.0.now
        × HaveSmallNumbers result.1.now }
{
    pairs.split_at(count_in_front(pairs, pairs[0].selector))
}

// Returns how many groups pairs have.
fn count_groups(pairs: &[Pair]) -> usize
    ensures value { result ≡ length (grouped pairs.now) }
    ensures few { result ≤ length pairs.now }
{
    let mut left = pairs;
    let mut count = 0;
    while !left.is_empty() {
        let (_group, others) = split_group(left);
        count += 1;
        left = others;
    }
    count
}

/// Returns how many bytes the subtable for pairs has, which are in order of their selectors.
pub fn made_size(pairs: &[Pair]) -> usize
    requires { length pairs.now ≤ MAX_ENTRIES }
    ensures { result ≡ subtable_size pairs.now }
{
    HEADER + (RECORD + COUNT) * count_groups(pairs) + MAPPING * pairs.len()
}

// Puts a record after what is made.
#[tactic(auto, unfolding(crate::specs::Written::record_bytes))]
fn push_record<A: Memory>(made: &mut Vec<u8, A>, selector: u32, at: u32) -> Result<(), NoMemory>
    requires { selector < 2 ^ 24 }
    ensures made { OnOk result (made.new.items ≡ made.old.items ++ record_bytes (selector, at)) }
    ensures memory { OnErr result (IsRefused A.refuses) }
{
    push_u24(made, selector)?;
    push_u32(made, 0)?;
    push_u32(made, at)
}

// Puts a mapping after what is made.
#[tactic(auto, unfolding(crate::specs::Written::mapping_bytes))]
fn push_mapping<A: Memory>(made: &mut Vec<u8, A>, pair: Pair) -> Result<(), NoMemory>
    requires { pair.code < 2 ^ 24 }
    ensures made { OnOk result (made.new.items ≡ made.old.items ++ mapping_bytes pair) }
    ensures memory { OnErr result (IsRefused A.refuses) }
{
    push_u24(made, pair.code)?;
    push_u16(made, pair.glyph)
}

// Puts a table after what is made.
#[tactic(auto, unfolding(crate::specs::Written::mappings_bytes))]
fn push_table<A: Memory>(made: &mut Vec<u8, A>, group: &[Pair]) -> Result<(), NoMemory>
    requires few { length group.now < 2 ^ 32 }
    requires small { HaveSmallNumbers group.now }
    ensures made { OnOk result (made.new.items ≡ made.old.items ++ mappings_bytes group.now) }
    ensures memory { OnErr result (IsRefused A.refuses) }
{
    push_u32(made, group.len() as u32)?;
    for pair in group {
        push_mapping(made, *pair)?;
    }
    Ok(())
}

// Puts the records of all selectors after what is made. Their tables stand end to end from a place on.
fn push_records<A: Memory>(made: &mut Vec<u8, A>, pairs: &[Pair], at: u32) -> Result<(), NoMemory>
    requires room { at + 4 * length (grouped pairs.now) + 5 * length pairs.now < 2 ^ 32 }
    requires small { HaveSmallNumbers pairs.now }
    ensures made { OnOk result (made.new.items
        ≡ made.old.items ++ flat_map record_bytes (placed at (grouped pairs.now))) }
    ensures memory { OnErr result (IsRefused A.refuses) }
{
    let mut left = pairs;
    let mut place = at;
    while !left.is_empty() {
        let (group, others) = split_group(left);
        push_record(made, group[0].selector, place)?;
        place += (COUNT + MAPPING * group.len()) as u32;
        left = others;
    }
    Ok(())
}

// Puts the tables of all selectors after what is made.
fn push_tables<A: Memory>(made: &mut Vec<u8, A>, pairs: &[Pair]) -> Result<(), NoMemory>
    requires few { length pairs.now < 2 ^ 32 }
    requires small { HaveSmallNumbers pairs.now }
    ensures made { OnOk result
        (made.new.items ≡ made.old.items ++ flat_map mappings_bytes (grouped pairs.now)) }
    ensures memory { OnErr result (IsRefused A.refuses) }
{
    let mut left = pairs;
    while !left.is_empty() {
        let (group, others) = split_group(left);
        push_table(made, group)?;
        left = others;
    }
    Ok(())
}

/// Returns the subtable for pairs, which are in order of selectors and codes: each is a mapping of its own.
///
/// It asks for memory once, for the whole subtable.
///
/// # Errors
///
/// `NoMemory` if there is no memory for the subtable.
#[tactic(auto, unfolding(crate::specs::Written::subtable_bytes))]
pub fn make_subtable<A: Memory>(alloc: A, pairs: &[Pair]) -> Result<Vec<u8, A>, NoMemory>
    requires few { length pairs.now ≤ MAX_ENTRIES }
    requires small { HaveSmallNumbers pairs.now }
    ensures made { IfOk result (λ made. made.items ≡ subtable_bytes pairs.now) }
    ensures memory { OnErr result (IsRefused A.refuses) }
{
    let size = made_size(pairs);
    let selectors = count_groups(pairs);
    let mut made = alloc.room_for(size)?;
    push_u16(&mut made, FORMAT)?;
    push_u32(&mut made, size as u32)?;
    push_u32(&mut made, selectors as u32)?;
    push_records(&mut made, pairs, (HEADER + RECORD * selectors) as u32)?;
    push_tables(&mut made, pairs)?;
    Ok(made)
}
