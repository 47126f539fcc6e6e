//! Tests of the runs over readers and writers that fail at each call in turn, with each kind of
//! error, and over memory that is refused.
#![tactic(auto)]

#[cfg(test)]
mod failing_runs;
#[cfg(test)]
mod inlets_and_outlets;
#[cfg(test)]
mod refused_memory;
#[cfg(test)]
mod runs;
#[cfg(test)]
mod texts;
