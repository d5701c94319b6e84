//! Laws of the definitions of expansion. No code stands on them.
#![tactic(auto)]

pub mod laws;
