//! The lines that commands print: diagnostics, edits, refusals and counts. It knows how they are written, and not what they are of.
#![tactic(auto)]

pub mod counts;
pub mod diagnostics;
pub mod edits;
pub mod places;

pub use counts::{Counts, count_lines};
pub use diagnostics::{diagnostic_lines, has_error, not_utf8};
pub use edits::{edit_lines, refusal_line};
pub use places::place_text;
