//! What refused renames say (LSP 3.17, ResponseError).
#![tactic(auto)]

pub mod texts;

pub use texts::refusal_text;
