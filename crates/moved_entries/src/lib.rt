//! What is kept of forms that were gone through (R7RS 5.3), under other numbers, changed in place.
#![tactic(auto)]

pub mod laws;
pub mod left;
pub mod part;

pub use left::renumber_left;
pub use part::renumber_part;
