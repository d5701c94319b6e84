//! What a body says (JSON-RPC 2.0 section 4). Its reading as JSON is judged first, then its shape, then its
//! method, then its parameters.
ghost use Rattle.std.specs.Prelude.{◌≡◌, option_map, IfOk};
ghost use Rattle.serde_json.specs.View.{view};
ghost use Rattle.lsp_messages.specs.Parameters.{call_of, note_of};
ghost use Rattle.lsp_messages.specs.Messages as spec;
ghost use Rattle.lsp_messages.specs.Messages.{Answers};
ghost use Rattle.lsp_messages.specs.Shapes.{HasCause};

use crate::fault::{Fault, ReadError};
use crate::fields::id;
use crate::parameters::{call, note};
use crate::{Id, Message, Note, Reject};
use ls_base::{Mem, Memory, Text};
use serde_json::Value;
use std::alloc::Global;

/// The message that a body says, or why it is none. A body must be UTF-8 and JSON, in which the last of equal
/// keys counts and at most 127 lists and objects nest (`Parse`); it must have the shape of a message (`Invalid`);
/// a request must have a known method (`Method`) and the fields that this needs (`Params`). What fails first is
/// the answer.
pub fn read_message(alloc: Global, body: &[u8]) -> Result<Message, Reject>
    // The answer is what the body says.
    ensures exact { Answers result (spec.message_of body.now) }
    // A message has the shape of one, and a refusal its cause.
    ensures cause { HasCause body.now result }
{
    Ok(message(alloc, body)?)
}

/// The message that a body says, judged in order.
fn message(alloc: Global, body: &[u8]) -> Result<Message, Reject>
    ensures { Answers result (spec.message_of body.now) }
{
    let Some(value) = json(alloc, body)? else {
        return Err(Reject::Parse);
    };
    if !is_rpc(&value) {
        return Err(Reject::Invalid(valid_id(alloc, &value)?));
    }
    match value.get("method") {
        None => response(alloc, &value),
        Some(method) => named(alloc, method.as_str(), &value),
    }
}

/// The reading of a body as JSON, or `None` where it has none.
fn json(alloc: Global, body: &[u8]) -> Mem<Option<Value>>
    ensures { IfOk result (λ v. option_map view v ≡ spec.json_of body.now) }
{
    match Value::from_slice(alloc, body) {
        Ok(value) => Ok(Some(value)),
        Err(error) if error.is_memory() => Err(Memory),
        Err(_) => Ok(None),
    }
}

/// Whether a message is of version 2.0.
fn is_rpc(message: &Value) -> bool
    ensures { result ≡ spec.is_rpc (view message.now) }
{
    message.get("jsonrpc").and_then(Value::as_str) == Some("2.0")
}

/// The id of a message, where it has a valid one.
fn valid_id(alloc: Global, message: &Value) -> Mem<Option<Id>>
    ensures { IfOk result (λ id. id ≡ spec.valid_id (view message.now)) }
{
    match message.get("id") {
        None => Ok(None),
        Some(value) => id(alloc, value),
    }
}

/// A message without a field `method`.
fn response(alloc: Global, message: &Value) -> Result<Message, Reject>
    ensures { Answers result (spec.response_of (view message.now)) }
{
    if message.get("result").is_some() || message.get("error").is_some() {
        return Ok(Message::Response);
    }
    Err(Reject::Invalid(valid_id(alloc, message)?))
}

/// A message with a field `method`, which must be a string.
fn named(alloc: Global, method: Option<&str>, message: &Value) -> Result<Message, Reject>
    ensures { Answers result
        (spec.message_by_name (view message.now) (option_map (λ s. s.now) method.entry)) }
{
    let Some(method) = method else {
        return Err(Reject::Invalid(valid_id(alloc, message)?));
    };
    match message.get("id") {
        None => notice(alloc, method, message),
        Some(value) => Ok(asked(alloc, id(alloc, value)?, method, message)?),
    }
}

/// A message with a method and a field `id`.
fn asked(alloc: Global, id: Option<Id>, method: &str, message: &Value) -> Result<Message, Reject>
    ensures { Answers result (spec.message_by_valid_id method.now (view message.now) id) }
{
    match id {
        None => Err(Reject::Invalid(valid_id(alloc, message)?)),
        Some(id) => request(alloc, id, method, message),
    }
}

/// A request.
fn request(alloc: Global, id: Id, method: &str, message: &Value) -> Result<Message, Reject>
    ensures { Answers result (spec.request_of id (call_of method.now (view message.now))) }
{
    match call(alloc, method, message) {
        Ok(call) => Ok(Message::Request { id, call }),
        Err(ReadError::Memory) => Err(Reject::Memory),
        Err(ReadError::Fault(Fault::Unknown)) => Err(Reject::Method(id)),
        Err(ReadError::Fault(Fault::Bad)) => Err(Reject::Params(id)),
    }
}

/// A notification.
fn notice(alloc: Global, method: &str, message: &Value) -> Result<Message, Reject>
    ensures { Answers result (spec.notice_of method.now (note_of method.now (view message.now))) }
{
    match note(alloc, method, message) {
        Ok(note) => Ok(Message::Notice(note)),
        Err(ReadError::Memory) => Err(Reject::Memory),
        Err(ReadError::Fault(Fault::Unknown)) => Ok(Message::Notice(Note::Other)),
        Err(ReadError::Fault(Fault::Bad)) => {
            let method = Text::of(alloc, method)?;
            Ok(Message::Notice(Note::BadParams { method }))
        }
    }
}
