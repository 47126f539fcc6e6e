//! Font files that are accepted, and why others are refused.
#![tactic(auto)]

mod font;
mod font_error;

pub use crate::font::Font;
pub use crate::font_error::FontError;
