//! The edits of all open documents by which the class of an identifier gets a new name: its members with their new names, those that
//! would get two, the edits of each document, and the edited texts.
#![tactic(auto)]

pub mod clashes;
pub mod edits;
pub mod laws;
pub mod members;
pub mod texts;

pub use clashes::first_clash;
pub use edits::class_edits;
pub use texts::{edited_texts, first_too_long, told_edits};
