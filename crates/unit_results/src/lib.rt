//! What units come to, what is found wrong in them, and all units put together (R7RS 5).
#![tactic(auto)]

pub mod collecting;
pub mod results;
