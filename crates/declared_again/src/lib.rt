//! What a form made and noted when it was gone through, made again from that in other surroundings (R7RS 5.3).
#![tactic(auto)]

pub mod laws;
