//! Codes: the search among ranges that are in order of their codes, maps from code to glyph and their runs,
//! sets of wanted codes, and the range words that write them.
//! OpenType 1.9, cmap: Character to Glyph Index Mapping Table, formats 4 and 12; this project's own.
#![tactic(auto)]

mod code_points;
mod code_range;
mod laws;
mod ranges;
mod runs;
mod search;
mod wanted;
mod word;

pub use crate::code_points::{CODES, LAST_CODE};
pub use crate::code_range::CodeRange;
pub use crate::laws::code_points_are;
pub use crate::runs::{Pieces, Run, clip, mapped_count, next_run, run_of};
pub use crate::search::{ANYWHERE, Ends, first_reaching};
pub use crate::wanted::{Wanted, WantedError};
pub use crate::word::{WordError, read_word};
