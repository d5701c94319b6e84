//! Laws of units, forms and definitions under other numbers. No code stands on them.
#![tactic(auto)]

pub mod laws;
