//! The names of the standard libraries, and the derived forms as macros (R7RS Appendix A, 4.2, 7.3).
#![tactic(auto)]

pub mod laws;
mod libraries;
mod macros;
mod making;
mod names;
mod sketch;
mod sketches;

pub use libraries::standard;
pub use macros::{PreludeMacro, prelude};
