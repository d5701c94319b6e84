//! Arrows from binders to uses, and the links by which occurrences are spelled.
#![tactic(auto)]

pub mod accesses;
pub mod arrows;
pub mod binders;
pub mod classes;
pub mod ident_links;
pub mod index;
pub mod laws;
pub mod links;
pub mod queries;
pub mod spelled;
pub mod use_links;
