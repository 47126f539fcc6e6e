//! The variation sequences of a font: what a selector after a code asks for.
//! OpenType 1.9, cmap, Format 14: Unicode variation sequences.
#![tactic(auto)]

mod encoding;
mod entries;
mod format14;
mod laws;
mod lists;
mod made_sequences;
mod spans;
mod strict;
mod variant;

pub use crate::entries::Entries;
pub use crate::format14::Sequences;
pub use crate::laws::{found_is_listed, made_has_size, made_is_read_back};
pub use crate::made_sequences::{made_size, make_subtable};
pub use crate::strict::is_strict;
pub use crate::variant::{Entry, Pair, Variant, pair_of, variant_glyph};

#[cfg(test)]
mod tests;
