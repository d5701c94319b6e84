//! Laws of the classes that renames take. No code stands here.
#![tactic(auto)]

pub mod laws;
