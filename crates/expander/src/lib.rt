//! The hygienic expansion of the forms of units (R7RS 4.1 to 4.3, 5.1 to 5.5): identifiers are looked up in scopes, and nothing is
//! substituted.
#![tactic(auto)]

mod bodies;
mod cores;
mod defining;
mod expressions;
mod passes;
mod unit;
mod uses;

pub use feature_requirements::{ExpandFault, Libraries};
pub use form_parts::{Item, Left, WaitingUse};
pub use unit::{declare_form, expand_item, meet_uses};
pub use unit_scopes::{Budget, Imported, UnitScope, units_go_on};
