//! The one writer of files: it measures a source first, and then sends its file to any sink.
#![tactic(auto)]

mod bytes;
mod cut_error;
mod laws;
mod made;
mod made_cmap;
mod made_glyf;
mod made_head;
mod made_loca;
mod outlet_sink;
mod plan;
mod same;
mod sink;
mod size;
mod source;
mod vec_sink;
mod whole_file;
mod writer;

pub use crate::cut_error::{CutError, CutIntoError};
pub use crate::laws::table_limit_is;
pub use crate::made::{Made, made_in};
pub use crate::plan::{Measure, Plan, plan_of};
pub use crate::same::{Same, is_file_of};
pub use crate::sink::{Sink, Stopped};
pub use crate::size::{Counts, Size, counted_size, file_size};
pub use crate::source::{MAX_TABLE, Source};
pub use crate::whole_file::{CURRENT, OLD, file_in_memory, is_whole_file, measured, send_whole};
pub use crate::writer::send_file;
pub use font_theory::Profile;
