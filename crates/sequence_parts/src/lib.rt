//! Variation sequences as a divided table: how they belong to glyphs, and laws of it.
//! OpenType 1.9, cmap, Format 14: Unicode variation sequences.
#![tactic(auto)]

mod laws;

pub use crate::laws::{
    clash_is_in_two_parts, fit_without_clash, font_has_its_glyphs, font_has_own_parts,
    parts_are_the_table, parts_of_one_table_fit, sequences_are_divided, sequences_are_read,
    sequences_change_no_map, table_has_its_glyphs, table_is_read_back, two_parts_do_not_fit,
    whole_is_of_its_parts, worked_parts,
};
