//! Laws of the turns of a unit's forms, of which some are kept (R7RS 5.1, 5.3). No code stands on them.
#![tactic(auto)]

pub mod laws;
