//! The requirements of `cond-expand` (R7RS 4.2.1): which clause is chosen, by the libraries that there are; and why an expansion ends
//! early.
#![tactic(auto)]

pub mod fault;
pub mod known;
pub mod libraries;
pub mod requirements;

pub use fault::ExpandFault;
pub use known::Libraries;
