//! Joins of cuts of one kind: of two and of many, in memory and to a writer.
#![tactic(auto)]

mod difference;
mod framed;
mod join_error;
mod join_input;
mod join_list;
mod join_pair;
mod join_source;
mod listed;
mod parts;
mod taken_outlines;
mod union;
mod without_codes;

pub use crate::join_error::{JoinAllError, JoinAllIntoError, JoinError, Which};
pub use crate::join_list::{
    join_all, join_all_into, join_all_of_kind, join_all_of_kind_into, open_first_file,
    union_of_files,
};
pub use crate::join_pair::{join, join_of_kind};
pub use crate::join_source::Joined;
pub use crate::union::Union;
