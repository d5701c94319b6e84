//! Renames (LSP 3.17, textDocument/rename, textDocument/prepareRename): the edits by which the class of an identifier gets a new name,
//! or why it is refused.
#![tactic(auto)]

pub mod comparing;
pub mod conditions;
pub mod planning;
pub mod preparing;
pub mod renaming;

pub use preparing::{Prepared, prepare};
pub use renaming::rename;
