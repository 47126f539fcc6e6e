//! The variation data of glyphs: what is refused of a `gvar`, what it has, and a `gvar` that is made anew.
//! OpenType 1.9, gvar: Glyph Variations Table.
#![tactic(auto)]

mod gvar;
mod laws;
mod made_gvar;

pub use crate::gvar::Variations;
pub use crate::laws::{
    made_again_is_itself, made_has_size, made_is_accepted, made_is_of_bytes, made_is_read_back,
    made_of_parts_is_accepted, offsets_lead_inside, worked_bad_gvar, worked_gvar,
};
pub use crate::made_gvar::make_gvar;
