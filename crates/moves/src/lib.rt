//! Other numbers for units and for the forms of each, and a work under them, changed in place.
#![tactic(auto)]

pub mod backs;
pub mod laws;
pub mod numbers;
pub mod works;

pub use numbers::Moves;
