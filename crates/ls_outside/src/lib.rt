//! The outside as the program meets it: where bytes come from, where they go, and the files that words name.
//! It knows nothing of texts, messages or commands.
#![tactic(auto)]

pub mod adapters;
mod faults;
pub mod files;
pub mod held;
pub mod memory;
pub mod pieces;
pub mod plan;
pub mod record;
mod room;
pub mod sink;
pub mod source;
pub mod sure;

pub use adapters::{StdFiles, StdSink, StdSource};
pub use files::{Fetch, Files};
pub use held::Contents;
pub use memory::{MemFiles, MemSink, MemSource};
pub use pieces::Pieces;
pub use plan::Plan;
pub use record::Record;
pub use sink::{Put, Sink};
pub use source::{Got, Source};
pub use sure::{SureFiles, SureSink, SureSource};

#[cfg(test)]
mod tests;
