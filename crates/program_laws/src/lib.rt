//! Laws of the program's definition. No code stands on them.
#![tactic(auto)]

pub mod laws;
