//! Laws of the units that the questions of a form mention. No code stands on them.
#![tactic(auto)]

pub mod laws;
