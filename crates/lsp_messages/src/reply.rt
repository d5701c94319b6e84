//! What the server sends: replies to requests, and notifications of its own.
use crate::Id;
use ls_base::{Answer, Diagnostic, Encoding, Items, Text};

/// A message to the client (JSON-RPC 2.0 section 5; LSP 3.17).
#[derive(Drop)]
pub enum Reply {
    /// What the server can do, in reply to `initialize`. `prepare` says that the client states prepare
    /// support for renames, `encoding` in what positions count.
    Capabilities {
        id: Id,
        prepare: bool,
        encoding: Encoding,
    },
    /// The reply to any other request.
    Result {
        id: Id,
        answer: Answer,
    },
    /// An error reply. Without an id it replies to a body that has no valid one.
    Error {
        id: Option<Id>,
        code: i32,
        text: Text,
    },
    /// The diagnostics of a document. Without a version the document is closed.
    Publish {
        uri: Text,
        version: Option<i64>,
        list: Items<Diagnostic>,
    },
    /// A text for the client's log.
    Log(Text),
}
