//! The libraries and programs of texts (R7RS 5.1, 5.6), whose forms may come from other texts.
#![tactic(auto)]

pub mod libraries;
pub mod programs;
mod reading;

pub use libraries::{library_name, read_unit};
pub use programs::{first_of_program, read_part, read_program};
