//! The characters and glyphs that a line wants, the slices that it names, and the tables that it drops.
pub(crate) mod choice;
pub(crate) mod dropped_tables;
pub(crate) mod glyph_numbers;
pub(crate) mod presets;
pub(crate) mod slice_list;
pub(crate) mod unnamed;
pub(crate) mod words;
