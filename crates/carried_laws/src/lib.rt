//! Laws that join carried forms to kept ones, under the numbers of the program after an event. No code stands on them yet.
#![tactic(auto)]

pub mod laws;
