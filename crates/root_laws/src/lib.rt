//! Laws of the forms of units, of which what is local is forgotten (R7RS 4.3, 5.3). No code stands on them.
#![tactic(auto)]

pub mod laws;
