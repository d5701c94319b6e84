//! Laws of units of which some forms are kept. No code stands on them.
#![tactic(auto)]

pub mod laws;
