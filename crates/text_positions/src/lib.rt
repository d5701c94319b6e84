//! Offsets and positions of a text (LSP 3.17, Position), found by a table of line starts and of marks within lines.
#![tactic(auto)]

pub mod lines;
pub mod marks;
mod within;

pub use lines::Lines;
