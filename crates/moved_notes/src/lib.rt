//! Laws of the notes of forms under other numbers. No code stands on them.
#![tactic(auto)]

pub mod laws;
