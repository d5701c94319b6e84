//! Laws of what forms ask where their turns come, where some forms are kept. No code stands on them.
#![tactic(auto)]

pub mod laws;
