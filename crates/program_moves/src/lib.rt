//! The new numbers that the units and forms of a program get in the next one, as tables that lead back.
#![tactic(auto)]

mod permutation;
mod tables;

pub use tables::{Home, moves_of};
