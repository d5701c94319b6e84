//! What the server says after a message.
ghost use Rattle.std.specs.Prelude.{◌≡◌, ◌∷◌, [], Some, None, IfOk};

use ls_base::{Items, Mem};
use lsp_messages::Reply;
use std::alloc::Global;

/// What a body leads to.
#[derive(Drop)]
pub struct Out {
    /// The messages to the client, in order.
    pub replies: Items<Reply>,
    /// The status with which the session ends, where it does.
    pub end: Option<u8>,
}

/// Nothing is said, and nothing ends. It takes no memory.
pub fn silent(alloc: Global) -> Out
    ensures { result ≡ record { replies = []; end = None } }
{
    Out {
        replies: Items::new(alloc),
        end: None,
    }
}

/// The session ends. It takes no memory.
pub fn ended(alloc: Global, status: u8) -> Out
    ensures { result ≡ record { replies = []; end = Some status } }
{
    Out {
        replies: Items::new(alloc),
        end: Some(status),
    }
}

/// One message.
pub fn said(alloc: Global, reply: Reply) -> Mem<Out>
    ensures { IfOk result (λ out. out ≡ record { replies = reply ∷ []; end = None }) }
{
    let mut replies = Items::new(alloc);
    replies.push(reply)?;
    Ok(Out { replies, end: None })
}
