//! Import sets (R7RS 5.2, 5.6), and the names that they give of what a library exports.
#![tactic(auto)]

pub mod circles;
pub mod clash;
pub mod copy;
pub mod entries;
pub mod fault;
pub mod firsts;
pub mod gather;
mod joining;
pub mod modify;
mod names;
mod origins;
pub mod places;
pub mod rename;
pub mod seconds;
pub mod set;
pub mod turns;
pub mod walk;

pub use copy::copy_of_origins;
pub use entries::entries_of;
pub use fault::ImportFault;
pub use rename::renamed;
pub use seconds::second_places;
pub use set::{ImportSet, NamePair, SetName, lists_none};
