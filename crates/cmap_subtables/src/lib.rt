//! The two formats of a `cmap` subtable that are read.
//! OpenType 1.9, cmap: Character to Glyph Index Mapping Table, formats 4 and 12.
#![tactic(auto)]

mod format12;
mod format4;

pub use crate::format4::{Segments, count_segments, glyph_at, walk_place};
pub use crate::format12::{ListedGroups, count_groups, group_at};
