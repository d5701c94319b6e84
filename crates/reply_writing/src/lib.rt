//! Replies as they are written, each in its frame (LSP 3.17, base protocol), and the last message of a broken stream.
#![tactic(auto)]

pub mod replies;
mod wording;
