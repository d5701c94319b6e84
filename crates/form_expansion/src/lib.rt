//! The forms of a unit as they are gone through and expanded (R7RS 5.1, 5.3).
#![tactic(auto)]

pub mod forms;
pub mod refused;
