//! The open documents with their units, the lists of diagnostics that are published, and the answers at positions of documents,
//! by the index of a program.
#![tactic(auto)]

pub mod answers;
pub mod asked;
mod bytes;
pub mod classes;
pub mod lists;
pub mod open;
pub mod publications;
mod sites;
