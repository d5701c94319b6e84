//! What is found wrong in forms, units and documents, and the findings of each document in their order.
#![tactic(auto)]

pub mod diagnosing;
mod homes;
pub mod sorted_findings;
mod unbound;
