//! The character map of a font: from code points to glyphs.
//! OpenType 1.9, cmap: Character to Glyph Index Mapping Table, formats 4 and 12.
#![tactic(auto)]

mod chart;
mod cmap;
mod groups;
mod laid_out;
mod laws;
mod mapping;
mod subtable;
mod text;
mod within;

pub use crate::chart::Chart;
pub use crate::groups::{Group, Groups};
pub use crate::laws::{
    canonical_groups, fewest_groups, map_laws, one_range_of_word, run_is_first_group,
};
pub use crate::mapping::{MapError, Mapping};
pub use codes::{
    CodeRange, Pieces, Run, Wanted, WantedError, WordError, next_run, read_word, run_of,
};
