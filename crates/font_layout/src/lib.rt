//! The glyphs that a font may put in place of others: the links of its GSUB.
//! OpenType 1.9, GSUB and OpenType Layout Common Table Formats.
#![tactic(auto)]

mod cleaning;
mod counted;
mod coverage;
mod entry;
mod laws;
mod layout;
mod link_steps;
mod links;
mod lookup;
mod lookup_subtable;
mod rule;
mod step;
mod tally;
mod walk;

pub use crate::cleaning::fixed_table;
pub use crate::laws::{
    leads_are_links, leads_are_listed, step_limit_is, worked_links, worked_refusals,
};
pub use crate::layout::{Layout, STEP_LIMIT};
pub use crate::links::Links;
pub use crate::step::Link;
