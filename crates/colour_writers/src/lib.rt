//! Colour tables that are written of what two of them say.
//! OpenType 1.9, COLR.
#![tactic(auto)]

mod layer_tables;
mod layers;
mod made_lists;
mod made_numbers;
mod made_paints;
mod made_trees;
mod picked;
mod places;
mod plans;
mod rooms;
mod sides;
mod writers;
#[cfg(test)]
mod written_tests;

pub use crate::sides::{Side, Sides};
pub use crate::writers::{layers_fit, paints_fit, write_layers, write_paints};
pub use colour_readers::{Varies, what_varies};
