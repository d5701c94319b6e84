//! The program of the open documents (R7RS 5): its units are expanded in turn, each after what it imports.
#![tactic(auto)]

mod expanding;
pub mod program;
