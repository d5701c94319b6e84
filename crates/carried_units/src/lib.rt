//! A law of the units whose forms are carried. No code stands on it.
#![tactic(auto)]

pub mod laws;
