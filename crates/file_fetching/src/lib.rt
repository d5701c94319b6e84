//! The files that words name, fetched in their order, each once and up to a limit of its length. It knows nothing of what the files
//! are for.
#![tactic(auto)]

pub mod fetching;

pub use fetching::{FetchStop, fetch_recording, fetch_text, fetch_texts};
