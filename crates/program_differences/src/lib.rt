//! Where two programs first differ: in their lists of units, their forms, the Errors of a unit and its exports; and the units in reach of
//! a change.
#![tactic(auto)]

pub mod both;
pub mod difference;
pub mod exports;
pub mod forms;
pub mod listed;
pub mod plan;
pub mod reach;
pub mod rules;
pub mod units;
