//! The messages of the protocol: what a body says, and the body of each reply (LSP 3.17 over JSON-RPC 2.0).
//! It reads JSON into `serde_json`'s `Value` and writes it piece by piece, and knows no session and no Scheme.
#![tactic(auto)]

mod encodings;
mod fault;
mod fields;
mod message;
mod parameters;
mod reading;
mod reply;
mod to_json;
mod writing;

pub use message::{At, Call, Id, Message, Note, Reject};
pub use reading::read_message;
pub use reply::Reply;
pub use writing::reply_bytes;
