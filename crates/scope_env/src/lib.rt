//! Scopes, and what identifiers mean in them (R7RS 3.1, 4.3).
#![tactic(auto)]

pub mod env;
pub mod laws;
mod marks;

pub use env::{Env, ScopeNo};
