//! The program `fontcut` over the arguments of a command line and files. Of its own part safety alone is
//! proved, and that it returns: tests show the rest. What its commands send is proved in `commands`.
#![tactic(auto)]

mod asked;
mod belongs_command;
mod cut_command;
mod demo;
mod dispatch;
mod join_command;
mod messages;
mod outcome;
mod paths;
mod show_command;
mod slice_command;

pub use crate::dispatch::{run_on_system, run_words};
pub use commands::{RunError, run_check, run_join, run_show, run_subset};
pub use program_files::{HeldFiles, KeepsReason, Reason, System};
pub use streams::{Inlet, ReadError};
