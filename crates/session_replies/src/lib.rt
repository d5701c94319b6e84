//! What the messages of a client are in the words of a session, and the messages that are its replies (LSP 3.17 over JSON-RPC 2.0).
#![tactic(auto)]

pub mod laws;
pub mod mode;
pub mod out;
pub mod replies;
pub mod wording;

pub use mode::Mode;
pub use out::Out;
