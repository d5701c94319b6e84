//! What forms made and noted when they were gone through, kept so that it can be made again (R7RS 5.3).
#![tactic(auto)]

pub mod again;
mod defining;
pub mod editions;
pub mod laws;
pub mod parts;
mod undoing;

pub use again::declare_again;
pub use editions::keep_edition;
pub use parts::{DeclaredPart, KeptMacro, OwnNote, take_part};
