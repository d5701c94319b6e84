//! The steps of an expansion that notes what it asks (R7RS 4.3, 5.3).
#![tactic(auto)]

pub mod defining;
pub mod forms;
mod laws;
pub mod libraries;
pub mod marks;
pub mod noted;
pub mod parts;
pub mod rules;
pub mod uses;
