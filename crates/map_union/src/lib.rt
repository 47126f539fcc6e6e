//! Lists of the runs of character maps, and the runs of the union of two maps, this project's own.
#![tactic(auto)]

mod merging;
mod run_list;
mod union_map;

pub use crate::run_list::{Hint, run_among};
pub use crate::union_map::UnionMap;
