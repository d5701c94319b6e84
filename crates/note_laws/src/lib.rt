//! Laws of the notes of a form. No code stands on them.
#![tactic(auto)]

pub mod laws;
