//! What the programs `rows` and `program_rows` read and write: the lines of rows, their arguments as JSON, and answers as text. For
//! tests alone.
#![tactic(auto)]

pub mod argument;
pub mod fault;
pub mod lines;
pub mod shown;
