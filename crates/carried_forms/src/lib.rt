//! Which forms go on from one program to the next, and the macro uses that an event costs.
#![tactic(auto)]

pub mod laws;
