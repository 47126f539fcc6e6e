//! Small fonts for the tests, and cuts that are known byte for byte.
#![tactic(auto)]

pub mod first_profile;
pub mod fonts;
pub mod known_cuts;
