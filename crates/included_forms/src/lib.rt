//! The forms of units whose texts include others (R7RS 4.1.7, 5.6.1): an included text stands in the place of the list that includes
//! it.
#![tactic(auto)]

mod choices;
mod counting;
mod declared;
pub mod given;
pub mod laws;
mod losing;
mod once;
mod planning;
mod plans;
mod resolving;
pub mod steps;
mod strings;
pub mod tables;
pub mod units;
mod writing;

pub use tables::{Documents, Table, Text};
pub use units::Listed;
