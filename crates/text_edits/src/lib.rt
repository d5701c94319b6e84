//! Texts in which identifiers get new names (R7RS 7.1.1): the edits of a document, the edited text, and that it reads.
#![tactic(auto)]

pub mod edits;
pub mod laws;
pub mod names;
pub mod ranges;

pub use edits::{Edit, edited_text, edits_of, is_too_long};
pub use names::{Members, TokenNames, add_member, new_symbol, note_names, stem_of};
pub use ranges::placed;
