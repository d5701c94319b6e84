//! What commands give: bytes that are printed whole, and the status that a run ends with.
#![tactic(auto)]

pub mod printing;
pub mod status;

pub use printing::{SinkFailed, print_all};
pub use status::Status;
