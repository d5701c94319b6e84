//! What an expansion reads of forms by their trees alone, and what it sets aside of them (R7RS 4.2.8, 4.3, 5.3, 5.5).
#![tactic(auto)]

pub mod heads;
pub mod items;
pub mod names;
pub mod places;
pub mod quasi;
pub mod records;

pub use items::{Item, Left, WaitingUse};
