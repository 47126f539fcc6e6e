//! What a GSUB may make of glyphs, by the words of the standard, and laws of it.
//! OpenType 1.9, GSUB and OpenType Layout Common Table Formats.
#![tactic(auto)]

mod laws;

pub use crate::laws::{
    cleaned_has_same_steps, runs_are_wanted, runs_stay_within, shaped_glyphs_are_kept,
    steps_are_links, worked_steps,
};
