//! A law of renumberings that agree on the numbers of a program. No code stands on it.
#![tactic(auto)]

pub mod laws;
