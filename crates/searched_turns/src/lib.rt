//! Laws of the turns of a unit's forms where a definition goes through the notes that speak of its identifier alone (R7RS 5.1, 5.3). No code
//! stands on them.
#![tactic(auto)]

pub mod laws;
