//! Tables of layout without what varies, this project's own. OpenType 1.9, BASE; GDEF; GPOS; GSUB.
ghost use Rattle.std.specs.Prelude.{◌≡◌, ◌≤◌, ◌+◌, IfOk, IsTrue, OnErr, Some, length};
ghost use Rattle.std.specs.Option.{option_map, option_or};
ghost use Rattle.sfnt_bytes.specs.Memory.{IsRefused};
ghost use Rattle.font_layout.specs.Cleaning.{field_at, field_since, fixed, has_field, with_zeros};

use sfnt_bytes::{BASE, GDEF, GSUB, Memory, NoMemory, be16, be32};

// Returns where the offset to what varies stands in the table of a slot.
#[tactic(auto, unfolding(crate::specs::Cleaning::field_at))]
fn field_at(slot: usize) -> usize
    ensures place { result ≡ field_at slot }
    ensures small { 8 ≤ result }
    ensures most { result ≤ 14 }
{
    if slot == BASE {
        return 8;
    }
    if slot == GDEF { 14 } else { 10 }
}

// Returns the least minor version that has it.
#[tactic(auto, unfolding(crate::specs::Cleaning::field_since))]
fn field_since(slot: usize) -> u16
    ensures { result ≡ field_since slot }
{
    if slot == GDEF { 3 } else { 1 }
}

// Returns whether a table has this field, whole.
#[tactic(auto, unfolding(crate::specs::Cleaning::has_field))]
fn has_field(slot: usize, table: &[u8]) -> bool
    ensures { result ≡ has_field slot table.now }
{
    let at = field_at(slot);
    (BASE <= slot && slot <= GSUB)
        && (at + 4 <= table.len() && (be16(table, 0) == 1 && field_since(slot) <= be16(table, 2)))
}

// Returns a table with four zeros from a place on.
fn with_zeros<A: Memory>(alloc: A, table: &[u8], at: usize) -> Result<Vec<u8, A>, NoMemory>
    requires { at + 4 ≤ length table.now }
    ensures zeros { IfOk result (λ v. v.items ≡ with_zeros at table.now) }
    ensures memory { OnErr result (IsRefused A.refuses) }
{
    let mut bytes = alloc.copy_of(table)?;
    bytes[at] = 0;
    bytes[at + 1] = 0;
    bytes[at + 2] = 0;
    bytes[at + 3] = 0;
    Ok(bytes)
}

/// Returns the table of a slot of layout without what varies. Where there is nothing of it, as in each cut, the table
/// itself serves, and none is returned.
///
/// # Errors
///
/// `NoMemory` if there is no memory for a copy of the table.
pub fn fixed_table<A: Memory>(
    alloc: A,
    slot: usize,
    table: &[u8],
) -> Result<Option<Vec<u8, A>>, NoMemory>
    ensures table { IfOk result (λ o. option_or (option_map (λ v. v.items) o) (Some table.now)
        ≡ Some (fixed slot table.now)) }
    ensures size { IfOk result (λ o. option_or (option_map (λ v. length v.items) o) (Some (length table.now))
        ≡ Some (length table.now)) }
    ensures memory { OnErr result (IsRefused A.refuses) }
{
    if !has_field(slot, table) {
        return Ok(None);
    }
    let at = field_at(slot);
    if be32(table, at) == 0 {
        return Ok(None);
    }
    let bytes = with_zeros(alloc, table, at)?;
    Ok(Some(bytes))
}
