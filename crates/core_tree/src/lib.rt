//! What forms expand to, what an expansion meets, and the units and the program that are made of these.
#![tactic(auto)]

pub mod cores;
pub mod traces;
pub mod units;
