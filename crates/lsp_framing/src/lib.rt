//! Bodies out of a byte stream, and frames round bodies (LSP 3.17, base protocol). It knows bytes alone, no messages and
//! no texts. What a stream of frames is stands in ls_base, in specs/Frames.antt.
#![tactic(auto)]

mod deframer;
mod header;
pub mod laws;
mod partial;
mod writing;

pub use deframer::{Deframer, FrameFault};
pub use writing::frame;
