//! The texts of the open documents, changed as an editor says (LSP 3.17, text synchronisation).
#![tactic(auto)]

mod edit;
pub mod faults;
mod kept;
pub mod laws;
pub mod store;

pub use faults::StoreFault;
pub use store::Store;
