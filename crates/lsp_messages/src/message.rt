//! What a client sends: requests, notifications and responses (JSON-RPC 2.0 section 4).
ghost use Rattle.std.specs.Prelude.{◌≡◌};
ghost use Rattle.lsp_messages.specs.declared.message.Reject.TheVariants.{Memory as OutOfMemory};

use ls_base::{Change, Encoding, Items, Memory, Pos, Query, Text};

/// What a request goes by: a whole number that fits an `i64`, or a string.
#[derive(Drop)]
pub enum Id {
    Number(i64),
    Name(Text),
}

/// A position in a document (LSP 3.17, TextDocumentPositionParams).
#[derive(Drop)]
pub struct At {
    pub uri: Text,
    pub pos: Pos,
}

/// What a request asks (LSP 3.17).
#[derive(Drop)]
pub enum Call {
    /// `initialize`. `prepare` says that the client states prepare support for renames, `encoding` in what positions
    /// are to count.
    Initialize { prepare: bool, encoding: Encoding },
    /// `shutdown`.
    Shutdown,
    /// A question about a position. The arrows of a document are asked at line 0, character 0.
    Ask { at: At, query: Query },
    /// A rename of what stands at a position.
    Rename { at: At, new_name: Text },
}

/// What a notification tells (LSP 3.17).
#[derive(Drop)]
pub enum Note {
    /// `exit`.
    Exit,
    /// `textDocument/didOpen`.
    Opened {
        uri: Text,
        version: i64,
        text: Text,
    },
    /// `textDocument/didChange`. Each change applies to what the one before left.
    Changed {
        uri: Text,
        version: i64,
        changes: Items<Change>,
    },
    /// `textDocument/didClose`.
    Closed {
        uri: Text,
    },
    /// `$/cancelRequest` with a valid id.
    Cancel {
        id: Id,
    },
    /// A notification of a known method whose parameters lack a field, or have one of another type.
    BadParams {
        method: Text,
    },
    /// A notification of any other method, and `$/cancelRequest` without a valid id.
    Other,
}

/// A message of the client.
#[derive(Drop)]
pub enum Message {
    /// A request with a known method and its parameters.
    Request { id: Id, call: Call },
    /// A notification, which is never replied to.
    Notice(Note),
    /// A response, of which nothing is kept, since the server asks nothing.
    Response,
}

/// Why a body is no message, or a request that can't be answered (JSON-RPC 2.0 section 5.1). The id is that of
/// the body, where it has a valid one.
#[derive(Drop)]
pub enum Reject {
    /// Memory ran out.
    Memory,
    /// The body is no JSON.
    Parse,
    /// The JSON isn't a message.
    Invalid(Option<Id>),
    /// A request of an unknown method.
    Method(Id),
    /// A request of a known method whose parameters lack a field, or have one of another type.
    Params(Id),
}

impl From<Memory> for Reject {
    ghost from_gives = { λ _ e. e ≡ OutOfMemory };

    fn from(_: Memory) -> Reject {
        Reject::Memory
    }
}
