//! What is kept of forms, with what came of them (R7RS 5.3), under other numbers of units and forms, changed in place without memory.
#![tactic(auto)]

mod entries;
pub mod laws;

pub use entries::renumber_entry;
