//! What forms expand to, and what is left of them, under other numbers, changed in place.
#![tactic(auto)]

pub mod cores;
pub mod forms;
pub mod laws;
pub mod leaves;
pub mod notes;
pub mod program;
