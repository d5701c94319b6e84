//! The command `arrows`: a text is read whole, opened alone, and its arrows are printed.
#![tactic(auto)]

pub mod alone;
pub mod arrows;
pub mod laws;
pub mod printing;
pub mod reading;
mod wording;

pub use arrows::{ArrowsEnd, TextEnd};
