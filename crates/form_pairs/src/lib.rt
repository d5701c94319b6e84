//! Which units and forms of a program go on in the next one, by their texts alone.
#![tactic(auto)]

mod forms;
mod pairs;
mod same;
mod units;

pub use pairs::{UnitPair, unit_pairs};
pub use units::UnitText;
