//! Sets of wanted characters: what words of lists and texts in UTF-8 name, what else a text
//! needs, and its variation sequences. Safety alone is
//! proved, and that each call returns: tests show the rest.
#![tactic(auto)]

mod code_set;
mod glyph_columns;
mod listed_number;
mod listed_word;
mod sequence_set;
mod text_needs;
mod utf8;
mod wanted_files;

pub use crate::code_set::{CodeSet, count_of};
pub use crate::listed_number::{LAST_GLYPH, numbers_of, read_numbers};
pub use crate::listed_word::{is_range_word, read_listed, read_sequence};
pub use crate::sequence_set::{SELECTORS, SequenceSet, add_sequences};
pub use crate::text_needs::{TextNeeds, add_all_parts, add_texts};
pub use crate::utf8::{NotUtf8, Utf8};
pub use crate::wanted_files::{
    FileFault, FileKind, add_listed, add_listed_sequences, add_text_of_file,
};
