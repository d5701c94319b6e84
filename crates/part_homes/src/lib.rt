//! A law of the homes of included forms. No code stands on it.
#![tactic(auto)]

pub mod laws;
