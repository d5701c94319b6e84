//! The macro uses that expanding a program counts (R7RS 4.3): a definition, and that scopes count the same. No code stands on it.
#![tactic(auto)]

pub mod laws;
