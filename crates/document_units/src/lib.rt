//! The documents as they are read, their units (R7RS 5.1, 5.6), what breaks these and their turns, places in them, and what a
//! finding is.
#![tactic(auto)]

pub mod breaking;
mod identifiers;
pub mod included;
pub mod known;
pub mod listing;
