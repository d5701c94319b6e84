//! What renames answer (LSP 3.17, textDocument/rename): their edits as they are told, or why they are refused.
#![tactic(auto)]

pub mod faults;

pub use faults::RenameFault;
