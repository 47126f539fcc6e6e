//! What varies in a colour table. OpenType 1.9, COLR, Header; OpenType Font Variations Common Table Formats,
//! DeltaSetIndexMap table; ItemVariationStore table.
ghost use Rattle.std.specs.Prelude.{◌≡◌, ◌+◌, ◌<◌, ◌≤◌, ◌^◌, length, max};
ghost use Rattle.colour_tables.specs.Stores.{data_end, data_end_at, data_ends, delta_set_size, entry_size, index_map_in, index_map_size, regions_end, store_end, store_in, store_of};
ghost use Rattle.colour_readers.specs.Varying.{store_by};

use crate::fields::{byte_at, bytes_from, u16_at, u32_at};
use crate::open_colours::PaintTable;
use crate::varies::Varies;

// Returns how many bytes an entry of a map has.
fn entry_size(b: &[u8]) -> u64
    ensures value { result ≡ entry_size b.now }
    ensures small { result ≤ 4 }
{
    u64::from(byte_at(b, 1) / 16 % 4) + 1
}

// Returns how many bytes a map has that begins bytes, and 0 in another format.
fn index_map_size(b: &[u8]) -> u64
    ensures value { result ≡ index_map_size b.now }
    ensures small { result < 2 ^ 40 }
{
    let format = byte_at(b, 0);
    if format == 0 {
        return 4 + entry_size(b) * u64::from(u16_at(b, 2));
    }
    if format == 1 {
        return 6 + entry_size(b) * u64::from(u32_at(b, 2));
    }
    0
}

// Returns the map that begins bytes, if it is all there.
#[tactic(auto, unfolding(colour_tables::specs::Stores::index_map_in))]
fn index_map_in(b: &[u8]) -> &[u8]
    ensures value { result.now ≡ index_map_in b.now }
    ensures less { length result.now ≤ length b.now }
{
    let size = index_map_size(b);
    if (b.len() as u64) < size {
        return &[];
    }
    &b[..size as usize]
}

// Returns where the VariationRegionList of a store ends.
fn regions_end(b: &[u8]) -> u64
    ensures value { result ≡ regions_end b.now }
    ensures small { result < 2 ^ 40 }
{
    let at = u32_at(b, 2) as usize;
    at as u64 + 4 + 6 * (u64::from(u16_at(b, at)) * u64::from(u16_at(b, at + 2)))
}

// Returns how many bytes a set of deltas has.
fn delta_set_size(words: u16, regions: u16) -> u64
    ensures value { result ≡ delta_set_size words regions }
    ensures small { result < 2 ^ 20 }
{
    (1 + u64::from(words / 32768)) * (u64::from(words % 32768) + u64::from(regions))
}

// Returns where an ItemVariationData at a place ends.
fn data_end_at(b: &[u8], at: usize) -> u64
    requires { at < 2 ^ 32 }
    ensures value { result ≡ data_end_at b.now at }
    ensures small { result < 2 ^ 40 }
{
    let regions = u16_at(b, at + 4);
    let deltas = delta_set_size(u16_at(b, at + 2), regions);
    at as u64 + 6 + 2 * u64::from(regions) + u64::from(u16_at(b, at)) * deltas
}

// Returns where the one with an index ends, and 0 where its offset is 0.
fn data_end(b: &[u8], k: u16) -> u64
    ensures value { result ≡ data_end b.now k }
    ensures small { result < 2 ^ 40 }
{
    let at = u32_at(b, 8 + 4 * usize::from(k));
    if at == 0 {
        return 0;
    }
    data_end_at(b, at as usize)
}

// Returns the greater of two numbers.
fn greater(x: u64, y: u64) -> u64
    ensures { result ≡ max x y }
{
    if x < y { y } else { x }
}

// Returns where the last of so many ends.
#[tactic(auto, using(crate::proofs::StoreLemmas::next_end))]
fn data_ends(b: &[u8], count: u16) -> u64
    ensures value { result ≡ data_ends b.now count }
{
    let mut end = 0;
    for k in 0..count {
        end = greater(end, data_end(b, k));
    }
    end
}

// Returns where the last piece of a store ends.
fn store_end(b: &[u8]) -> u64
    ensures { result ≡ store_end b.now }
{
    let count = u16_at(b, 6);
    let front = greater(8 + 4 * u64::from(count), regions_end(b));
    greater(front, data_ends(b, count))
}

// Returns the store that begins bytes, to the end of its last piece, if that is all there.
#[tactic(auto, unfolding(colour_tables::specs::Stores::store_in))]
fn store_in(b: &[u8]) -> &[u8]
    ensures value { result.now ≡ store_in b.now }
    ensures less { length result.now ≤ length b.now }
{
    if u16_at(b, 0) != 1 || u32_at(b, 2) == 0 {
        return &[];
    }
    let end = store_end(b);
    if (b.len() as u64) < end {
        return &[];
    }
    &b[..end as usize]
}

// Returns the map of a table.
#[tactic(auto, unfolding(colour_tables::specs::Stores::store_of, colour_tables::specs::Stores::index_map_offset))]
fn map_of(t: &[u8]) -> &[u8]
    ensures value { result.now ≡ (store_of t.now).index_map }
    ensures less { length result.now ≤ length t.now }
{
    let at = u32_at(t, 26);
    if at == 0 {
        return &[];
    }
    index_map_in(bytes_from(t, at as usize))
}

// Returns the store of a table.
#[tactic(auto, unfolding(colour_tables::specs::Stores::store_of, colour_tables::specs::Stores::store_offset))]
fn data_of(t: &[u8]) -> &[u8]
    ensures value { result.now ≡ (store_of t.now).store }
    ensures less { length result.now ≤ length t.now }
{
    let at = u32_at(t, 30);
    if at == 0 {
        return &[];
    }
    store_in(bytes_from(t, at as usize))
}

/// Returns what varies in a table.
pub fn what_varies<'t>(table: &PaintTable<'t>) -> Varies<'t>
    ensures value { store_by result ≡ store_of table.now.0 }
    ensures index_map { length result.index_map.now ≤ length table.now.0 }
    ensures store { length result.store.now ≤ length table.now.0 }
{
    let bytes = table.bytes();
    Varies {
        index_map: map_of(bytes),
        store: data_of(bytes),
    }
}
