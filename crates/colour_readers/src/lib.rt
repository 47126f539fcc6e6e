//! Colour tables as code reads them: which are divided, and what they say of a glyph.
//! OpenType 1.9, COLR.
#![tactic(auto)]

mod fields;
mod glyph_layers;
mod glyph_names;
mod layer_lists;
mod open_colours;
mod paint_lists;
mod paint_trees;
mod rows;
mod shapes;
mod stores;
mod subtrees;
mod table_tree;
mod varies;

pub use crate::glyph_layers::GlyphLayers;
pub use crate::layer_lists::is_layer_table;
pub use crate::open_colours::{LayerTable, PaintTable};
pub use crate::paint_lists::is_paint_table;
pub use crate::stores::what_varies;
pub use crate::table_tree::TableTree;
pub use crate::varies::Varies;
