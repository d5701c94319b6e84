//! Laws of texts that include others (R7RS 4.1.7, 5.6.1): what they name, directly or not, and that nested includes come to an end.
#![tactic(auto)]

pub mod laws;
