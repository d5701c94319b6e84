//! What a form asks of what is around it, noted while it is gone through and expanded (R7RS 4.3, 5.3).
#![tactic(auto)]

pub mod notes;
pub mod noting;

pub use notes::{Definition, Note, Notes, Outcome, Question};
pub use noting::Noting;
