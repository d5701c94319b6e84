//! What import sets and exports give a unit (R7RS 5.2, 5.6.1): entries, the names of these, and what is wrong in them.
#![tactic(auto)]

pub mod defined;
pub mod entries;
pub mod expanded;
pub mod exported;
mod joining;
pub mod names;
pub mod seconds;
