//! Which open document a string means in another (URL Standard, sections 4.4 and 4.5), by the documents' uris.
#![tactic(auto)]

mod firsts;
pub mod laws;
pub mod named;
mod paths;
mod uris;
mod urls;

pub use uris::Uris;
