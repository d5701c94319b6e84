//! What a body is to those that stand before it.
ghost use Rattle.std.specs.Prelude.{◌≡◌, ◌≢◌, IfOk, OnOk};
ghost use Rattle.lookahead.specs.Roles as spec;

use ls_base::{Mem, Memory};
use lsp_messages::{Call, Id, Message, Note, Reject, read_message};
use std::alloc::Global;

/// What a body is to those that stand before it.
#[derive(Drop)]
pub enum Role {
    /// A request that can be cancelled: each but `initialize` and `shutdown`.
    Request(Id),
    /// A cancellation of the request with this id.
    Cancellation(Id),
    /// `exit`.
    Exit,
    /// Anything else.
    Other,
}

/// The role of a body.
pub(crate) fn role_of(alloc: Global, body: &[u8]) -> Mem<Role>
    ensures { IfOk result (λ role. role ≡ spec.role_of body.now) }
{
    match read_message(alloc, body) {
        Ok(message) => Ok(role_of_message(message)),
        Err(reject) => Ok(role_of_reject(reject)?),
    }
}

/// The role of a message.
fn role_of_message(message: Message) -> Role
    ensures { result ≡ spec.role_of_message message }
{
    match message {
        Message::Request { id, call } => role_of_call(id, &call),
        Message::Notice(note) => role_of_note(note),
        Message::Response => Role::Other,
    }
}

/// The role of a request.
fn role_of_call(id: Id, call: &Call) -> Role
    ensures { result ≡ spec.role_of_call id call.now }
{
    match call {
        Call::Initialize { .. } | Call::Shutdown => Role::Other,
        Call::Ask { .. } | Call::Rename { .. } => Role::Request(id),
    }
}

/// The role of a notification.
fn role_of_note(note: Note) -> Role
    ensures { result ≡ spec.role_of_note note }
{
    match note {
        Note::Exit => Role::Exit,
        Note::Cancel { id } => Role::Cancellation(id),
        Note::Opened { .. }
        | Note::Changed { .. }
        | Note::Closed { .. }
        | Note::BadParams { .. }
        | Note::Other => Role::Other,
    }
}

/// The role of a body that is no message, or a request that can't be answered. Want of memory is passed on.
fn role_of_reject(reject: Reject) -> Mem<Role>
    ensures role { IfOk result (λ role. role ≡ spec.role_of_reject reject) }
    ensures memory { OnOk result (reject ≢ Reject.Memory) }
{
    match reject {
        Reject::Memory => Err(Memory),
        Reject::Parse | Reject::Invalid(_) => Ok(Role::Other),
        Reject::Method(id) | Reject::Params(id) => Ok(Role::Request(id)),
    }
}
