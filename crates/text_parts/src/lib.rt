//! Which documents are parts of others, which of them can be included, and in which order (R7RS 4.1.7, 5.6.1).
#![tactic(auto)]

mod marks;
mod naming;
mod ordering;
pub mod parts;
mod programs;
pub mod reaches;
pub mod texts;

pub use parts::{TextPart, TextParts, text_parts};
pub use texts::TextRead;
