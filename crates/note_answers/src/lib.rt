//! Whether what a form asked has its answers still (R7RS 4.3, 5.3).
#![tactic(auto)]

mod answers;
pub mod laws;

pub use answers::{has_answer, still_good};
