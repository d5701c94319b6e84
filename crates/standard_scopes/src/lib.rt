//! The scopes in which each expansion begins: all standard names, and the macros of the prelude (R7RS 4.2, 7.3).
#![tactic(auto)]

pub mod prelude;
