//! What sentences of the documents say of cuts, as laws.
#![tactic(auto)]

mod laws;

pub use crate::laws::{
    closed_cut_is_plain, cut_is_given_back, dropping_keeps_cut, dropping_keeps_fault,
    own_cut_is_renewed, texts_are_short,
};
