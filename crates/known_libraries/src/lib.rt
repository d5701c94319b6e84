//! The libraries that there are, by their names, and the requirements of `cond-expand` that ask for them (R7RS 4.2.1, 5.6).
#![tactic(auto)]

pub mod known;
pub mod library_names;
pub mod requirements;

pub use known::KnownLibraries;
