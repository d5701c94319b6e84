//! The scopes of units (R7RS 3.1, 4.3, 5.3, 5.6): what identifiers mean, what is defined, the macros and their uses, and what the form
//! at work has counted.
#![tactic(auto)]

pub mod asked;
pub mod binding;
pub mod counting;
pub mod definitions;
pub mod forgetting;
pub mod heads;
pub mod macros;
pub mod prelude;
pub mod quasi;
pub mod scope;
pub mod syntax;
pub mod unit;
pub mod unit_macros;
pub mod uses;

pub use prelude::units_go_on;
pub use scope::{Budget, Imported, UnitScope};
