//! The data of Scheme texts (R7RS 7.1.2), read from their tokens, and their trees.
#![tactic(auto)]

mod bytes;
mod close;
mod copy;
pub mod datum;
pub mod heads;
pub mod laws;
pub mod look;
mod open;
mod reader;
mod seeding;
pub mod shape_fault;
pub mod start;
mod step;
mod tail;

pub use datum::{Atom, Datum, Mark, Shape};
pub use reader::{read_all, read_with_spans};
pub use seeding::{joined, seed, seed_as};
