//! Laws of units that forget what is local behind each form's turn. No code stands on them.
#![tactic(auto)]

pub mod laws;
