//! A law of pairs that are known before forms are worked on. No code stands on it.
#![tactic(auto)]

pub mod laws;
