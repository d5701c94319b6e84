//! Laws of one form of a unit in two surroundings. No code stands on them.
#![tactic(auto)]

pub mod laws;
