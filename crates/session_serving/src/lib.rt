//! One session over a source and a sink: bytes are taken piece by piece, cut into bodies, and answered in their order.
#![tactic(auto)]

pub mod ahead_laws;
pub mod answering;
pub mod laws;
pub mod serve;
pub mod server;

pub use answering::Exit;
pub use serve::SessionEnd;
