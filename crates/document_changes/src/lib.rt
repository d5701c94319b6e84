//! What events and edits do to the open documents, which of these are parts of others, and which units a class reaches.
#![tactic(auto)]

pub mod edited;
pub mod events;
pub mod parts;
pub mod reach;
pub mod texts;
