//! Laws of the turns of a unit that is worked on, where some of its forms are kept. No code stands on them.
#![tactic(auto)]

pub mod laws;
