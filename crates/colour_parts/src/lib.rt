//! Colour tables as divided tables: how what is drawn in colours belongs to glyphs, and laws of it.
//! OpenType 1.9, COLR.
#![tactic(auto)]

mod laws;

pub use crate::laws::{
    colour_tables_are_divided, cuts_say, layer_tables_are_divided, names_are_glyphs, names_on_cuts,
    paint_tables_are_divided, parts_of_one_table_fit, parts_tell, still_of_varying,
    wholes_are_bytes, wholes_are_made, worked_colours,
};
