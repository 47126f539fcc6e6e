//! Colour tables: what is drawn for a glyph in colours.
//! OpenType 1.9, COLR.
#![tactic(auto)]

mod laws;
mod layer;
mod shape;

pub use crate::laws::{layers_are_read_back, paints_are_read_back, written_are_bytes};
pub use crate::layer::{Base, Layer};
pub use crate::shape::{Kind, Shape};
