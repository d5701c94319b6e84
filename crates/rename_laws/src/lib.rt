//! Laws of the program's definition that renames are proved by. No code stands here.
#![tactic(auto)]

pub mod laws;
