//! Bodies that are looked at together before the first of them is answered, so that a notification behind a request can cancel it
//! (LSP 3.17, "Cancellation Support"). It knows messages and no session: the caller puts bodies in and takes them out.
#![tactic(auto)]

mod bodies;
mod cancellations;
mod counts;
mod held;
pub mod laws;
mod looking;
mod role;
mod window;

pub use bodies::Bodies;
pub use looking::Looking;
pub use window::{Next, Window, WindowFault};
