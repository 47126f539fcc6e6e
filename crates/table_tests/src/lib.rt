//! Tests of what is read of a font, of wanted sets and of the closure: what no program shows of them, and
//! memory that is refused.
#![tactic(auto)]

mod records;
mod toys;

pub use crate::records::Records;
pub use crate::toys::Toys;

#[cfg(test)]
mod base6;
#[cfg(test)]
mod charts;
#[cfg(test)]
mod closures;
#[cfg(test)]
mod fonts;
#[cfg(test)]
mod layouts;
#[cfg(test)]
mod links;
#[cfg(test)]
mod parted_toys;
#[cfg(test)]
mod refusals_of_memory;
#[cfg(test)]
mod variations;
#[cfg(test)]
mod wanted_sets;
