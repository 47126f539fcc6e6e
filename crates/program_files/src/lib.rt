//! What the program does with files of the system: those that it writes, and what it is run with. Safety alone is
//! proved, and that each call returns: tests show the rest.
#![tactic(auto)]

mod arguments;
mod held_files;
mod out_file;
mod out_writer;
mod replaced_files;
mod standard_files;
mod system;

pub use crate::arguments::{unreadable_argument, words_of_line};
pub use crate::held_files::HeldFiles;
pub use crate::out_file::{OutFile, Target, standing_file};
pub use crate::out_writer::OutWriter;
pub use crate::replaced_files::{stands_at, writable_file};
pub use crate::standard_files::fill_standard;
pub use crate::system::{KeepsReason, Reason, System};
