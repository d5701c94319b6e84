//! Programs as lists of points, and two such lists compared: what tells when two programs are the same up to the names that were
//! asked for.
#![tactic(auto)]

pub mod compare;
pub mod data;
pub mod laws;
pub mod marks;
pub mod meanings;
pub mod nodes;
pub mod numbers;
pub mod points;
pub mod quoted;
pub mod slots;
pub mod trees;
