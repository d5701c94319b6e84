//! A law of the entries of carried forms, from one program to the next. No code stands on it.
#![tactic(auto)]

pub mod laws;
