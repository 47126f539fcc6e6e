//! Tests over cuts and joins, of what no program shows: writers that fail, memory that is refused, and calls
//! of their own.
#![tactic(auto)]

#[cfg(test)]
mod answers;
#[cfg(test)]
mod calls;
#[cfg(test)]
mod lean_cuts;
#[cfg(test)]
mod lean_joins;
#[cfg(test)]
mod refused_cuts;
#[cfg(test)]
mod refused_joins;
#[cfg(test)]
mod samples;
#[cfg(test)]
mod sent_cuts;
#[cfg(test)]
mod sent_joins;
