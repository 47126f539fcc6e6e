//! The keys of pairs in order, by which the pairs of a glyph are found. This project's own.
ghost use Rattle.std.specs.Prelude.{◌≡◌, ◌≤◌, nat_lt, length, map, true, false, IfOk, OnErr};
ghost use Rattle.sfnt_bytes.specs.Memory.{IsRefused};
ghost use Rattle.std.specs.List.Sorted.{IsNonDecreasing, IsPartitionPoint};
ghost use Rattle.divided_tables.specs.SequenceIndex.{AreKeysOf, key_from, key_of, keys_between};

use codes::CODES;
use sfnt_bytes::{Memory, NoMemory};
use variation_sequences::Pair;

/// How many selectors and codes there are.
const SEQUENCES: u64 = (CODES as u64) * (CODES as u64);

// Returns the least key of a glyph.
fn key_from(g: u32) -> u64
    requires { g ≤ 65536 }
    ensures { result ≡ key_from g }
{
    u64::from(g) * SEQUENCES
}

// Returns a pair as a number.
#[tactic(auto, unfolding(crate::specs::SequenceIndex::key_of))]
fn key_of(pair: Pair) -> u64
    ensures { result ≡ key_of pair }
{
    key_from(u32::from(pair.glyph))
        + (u64::from(CODES) * u64::from(pair.selector) + u64::from(pair.code))
}

// Returns the keys of pairs, in their order.
fn keys_in<A: Memory>(alloc: A, pairs: &[Pair]) -> Result<Vec<u64, A>, NoMemory>
    ensures keys { IfOk result (λ keys. keys.items ≡ map key_of pairs.now) }
    ensures memory { OnErr result (IsRefused A.refuses) }
{
    let mut keys = alloc.room_for(pairs.len())?;
    for pair in pairs {
        A::push(&mut keys, key_of(*pair))?;
    }
    Ok(keys)
}

/// Returns the keys of pairs, in order of the keys.
///
/// # Errors
///
/// `NoMemory` if there is no memory for the keys.
pub(crate) fn index_of<A: Memory>(alloc: A, pairs: &[Pair]) -> Result<Vec<u64, A>, NoMemory>
    ensures keys { IfOk result (λ keys. AreKeysOf pairs.now keys.items) }
    ensures memory { OnErr result (IsRefused A.refuses) }
{
    let mut keys = keys_in(alloc, pairs)?;
    keys.sort_unstable();
    Ok(keys)
}

// Returns how many keys are below a number.
fn count_below(keys: &[u64], key: u64) -> usize
    requires { IsNonDecreasing keys.now }
    ensures bound { result ≤ length keys.now }
    ensures point { IsPartitionPoint (λ k. nat_lt k key ≡ true) (λ k. nat_lt k key ≡ false) keys.now result }
{
    keys.partition_point(
        |k: &u64| -> bool
            ensures { result ≡ nat_lt k.now key }
        { *k < key },
    )
}

/// Returns the keys of some glyphs, from one on and below another.
pub(crate) fn keys_between(keys: &[u64], from: u32, to: u32) -> &[u64]
    requires order { IsNonDecreasing keys.now }
    requires some { from ≤ to }
    requires small { to ≤ 65536 }
    ensures { result.now ≡ keys_between from to keys.now }
{
    let first = count_below(keys, key_from(from));
    let end = count_below(keys, key_from(to));
    &keys[first..end]
}
