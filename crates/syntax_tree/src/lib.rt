//! Symbols, identifiers and trees by number, and what stands on them: rules of macros, meanings and units.
#![tactic(auto)]

pub mod look;
pub mod meaning;
pub mod notes;
pub mod rules;
pub mod symbols;
pub mod texts;
pub mod trees;
pub mod units;
