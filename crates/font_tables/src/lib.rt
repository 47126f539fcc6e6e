//! The tables that every TrueType font must have: counts, metrics and outlines.
//! OpenType 1.9 and ISO/IEC 14496-22, `head`, `maxp`, `hhea`, `hmtx`, `loca` and `glyf`.
#![tactic(auto)]

mod head;
mod hhea;
mod hmtx;
mod loca;
mod maxp;
mod tables;
mod text;

pub use crate::hhea::{has_bad_hhea, read_number_of_h_metrics};
pub use crate::hmtx::has_bad_hmtx;
pub use crate::loca::{LocaForm, has_fall, outline_within, read_offset};
pub use crate::tables::{TableError, Tables};
