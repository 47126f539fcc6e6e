//! The commands of `fontcut` over readers and writers: the contract of each says what is sent and when it
//! stops.
#![tactic(auto)]

mod belongs;
mod check;
mod cut_request;
mod drop_tables;
mod join;
mod mapped_codes;
mod mapped_glyphs;
mod run_error;
mod show;
mod subset;
mod text_memory;

pub use crate::belongs::run_belongs;
pub use crate::check::run_check;
pub use crate::cut_request::CutRequest;
pub use crate::drop_tables::without_tables;
pub use crate::join::{run_join, run_join_of_kind};
pub use crate::mapped_codes::{codes_laws, next_range, run_codes};
pub use crate::mapped_glyphs::{glyphs_law, run_glyphs};
pub use crate::run_error::{NO_GLYPH, RunError, no_glyph_number_is};
pub use crate::show::run_show;
pub use crate::subset::{
    run_subset, run_subset_of_font, run_subset_of_kind, run_subset_of_request,
};
pub use crate::text_memory::TextMemory;
