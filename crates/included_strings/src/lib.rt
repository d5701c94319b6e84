//! The strings of lists that include other texts (R7RS 4.1.7, 5.6.1), in data as they are read.
#![tactic(auto)]

mod strings;
mod walk;

pub use strings::{includes, includes_declarations, string_in};
pub use walk::strings_in;
