//! Where bytes come from and go to: a reader, a writer, and what is known of each, this project's own.
#![tactic(auto)]

mod flushes;
mod inlet;
mod outlet;

pub use crate::flushes::Flushes;
pub use crate::inlet::{Inlet, ReadError};
pub use crate::outlet::{Outlet, WriteFault};
