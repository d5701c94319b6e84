//! A session of the protocol: what the server keeps, and what it answers to each message (LSP 3.17 over JSON-RPC 2.0).
#![tactic(auto)]

mod events;
mod renames;
mod session;

pub use session::Session;
