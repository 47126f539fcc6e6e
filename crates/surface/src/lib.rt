//! Uses each item that the calls of fontcut for Rust promise, under its crate and with its signature, so that none
//! of them moves or changes unseen. It is proved, which shows that each condition can be met, and never run.
#![tactic(auto)]

mod bytes;
mod cuts;
mod error_numbers;
mod glyphs;
mod kinds;
mod mapped;
mod program;
mod runs;
mod tables;

pub use crate::bytes::{directory, numbers};
pub use crate::cuts::{
    cut_forms, font, joins, looked_at, made_cuts, outlet, refused_file, sources,
};
pub use crate::error_numbers::{
    numbers_of_cuts, numbers_of_fonts, numbers_of_joins, numbers_of_parts, numbers_of_runs,
};
pub use crate::glyphs::{closure, named, parts, records};
pub use crate::kinds::{
    belonging, cut_of_opened, joins_of_kind, numbers_to_ask_for, opened_font, sent_cut,
    sent_full_join, sent_join,
};
pub use crate::mapped::{mapping, wanted_sets};
pub use crate::program::{checked, cut_of_inlet, inlet, join_of_files, program_of_words, shown};
pub use crate::runs::{
    belonging_of_inlets, codes_of_inlet, cut_of_font, cut_of_kind_of_inlet, cut_of_request,
    dropped_tables, glyphs_of_inlet, join_of_kind_of_files,
};
pub use crate::tables::metrics;
