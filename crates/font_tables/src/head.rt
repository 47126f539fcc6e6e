//! The font header. OpenType 1.9, `head`.
ghost use Rattle.std.specs.Prelude.{◌≡◌, ◌≤◌, length};
ghost use Rattle.font_tables.specs.Fields.{form_of_format, index_to_loc_format, magic_number, units_per_em};
ghost use Rattle.font_tables.specs.Refusals.{is_bad_head};

use crate::loca::LocaForm;
use sfnt_bytes::{be16, be32};

/// How many bytes the table has, or more.
const LENGTH: usize = 54;

/// What `magicNumber` must be.
const MAGIC_NUMBER: u32 = 0x5F0F_3CF5;

#[tactic(auto, unfolding(crate::specs::Fields::magic_number))]
fn read_magic_number(head: &[u8]) -> u32
    requires { 54 ≤ length head.now }
    ensures { result ≡ magic_number head.now }
{
    be32(head, 12)
}

#[tactic(auto, unfolding(crate::specs::Fields::units_per_em))]
pub(crate) fn read_units_per_em(head: &[u8]) -> u16
    requires { 54 ≤ length head.now }
    ensures { result ≡ units_per_em head.now }
{
    be16(head, 18)
}

#[tactic(auto, unfolding(crate::specs::Fields::index_to_loc_format))]
fn read_index_to_loc_format(head: &[u8]) -> u16
    requires { 54 ≤ length head.now }
    ensures { result ≡ index_to_loc_format head.now }
{
    be16(head, 50)
}

/// Returns the form of the offsets in `loca`.
pub(crate) fn read_loca_form(head: &[u8]) -> LocaForm
    requires { 54 ≤ length head.now }
    ensures { result ≡ form_of_format (index_to_loc_format head.now) }
{
    if read_index_to_loc_format(head) == 0 {
        LocaForm::Short
    } else {
        LocaForm::Long
    }
}

/// Returns whether the table is refused.
pub(crate) fn has_bad_head(head: &[u8]) -> bool
    ensures { result ≡ is_bad_head head.now }
{
    head.len() < LENGTH
        || read_magic_number(head) != MAGIC_NUMBER
        || read_index_to_loc_format(head) > 1
}
