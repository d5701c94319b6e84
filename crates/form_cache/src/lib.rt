//! What is kept of the forms of units from one reading of their texts to the next (R7RS 5.1, 5.3).
#![tactic(auto)]

pub mod cache;
pub mod entries;
pub mod shift;

pub use cache::FormCache;
pub use entries::{Declared, Entry};
pub use shift::shift_entry;
