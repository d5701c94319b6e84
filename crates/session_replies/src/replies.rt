//! The replies that say nothing of programs (JSON-RPC 2.0 section 5.1; LSP 3.17, "Lifecycle Messages" and "Cancellation Support").
ghost use Rattle.std.specs.Prelude.{◌≡◌, ◌∷◌, ◌++◌, [], Some, None, IfOk};
ghost use Rattle.std.specs.Option.{option_map};
ghost use Rattle.scheme_model.specs.Session as session;
ghost use Rattle.lookahead.specs.Ahead as ahead;
ghost use Rattle.session_replies.specs.FromWire.{said_encoding, said_id};
ghost use Rattle.session_replies.specs.Asked.{Question, IsAnswerTo};
ghost use Rattle.session_replies.specs.Stepped.{Says};

use crate::out::said;
use crate::{Out, wording};
use ls_base::{Answer, DocEdits, Encoding, Items, Mem, Text};
use lsp_messages::{Id, Reply};
use std::alloc::Global;

const PARSE_ERROR: i32 = -32_700;

const INVALID_REQUEST: i32 = -32_600;

const METHOD_NOT_FOUND: i32 = -32_601;

const INVALID_PARAMS: i32 = -32_602;

const SERVER_NOT_INITIALIZED: i32 = -32_002;

const REQUEST_FAILED: i32 = -32_803;

const REQUEST_CANCELLED: i32 = -32_800;

/// An error reply.
fn error(alloc: Global, id: Option<Id>, code: i32, text: &str) -> Mem<Out>
    ensures { IfOk result (λ out. Says out
        (session.Error (option_map said_id id) code text.now ∷ [])) }
{
    let text = Text::of(alloc, text)?;
    said(alloc, Reply::Error { id, code, text })
}

/// The reply to a body that is no JSON.
pub fn parse_error(alloc: Global) -> Mem<Out>
    ensures { IfOk result (λ out. Says out (session.parse_error ∷ [])) }
{
    Ok(error(alloc, None, PARSE_ERROR, wording::PARSE_ERROR)?)
}

/// The reply to what isn't a message, or to a request that mustn't come now.
pub fn invalid_request(alloc: Global, id: Option<Id>) -> Mem<Out>
    ensures { IfOk result (λ out. Says out (session.invalid_request (option_map said_id id) ∷ [])) }
{
    Ok(error(alloc, id, INVALID_REQUEST, wording::INVALID_REQUEST)?)
}

/// The reply to a request of an unknown method.
pub fn method_not_found(alloc: Global, id: Id) -> Mem<Out>
    ensures { IfOk result (λ out. Says out (session.method_not_found (said_id id) ∷ [])) }
{
    Ok(error(alloc, Some(id), METHOD_NOT_FOUND, wording::METHOD_NOT_FOUND)?)
}

/// The reply to a request whose parameters lack a field, or have one of another type.
pub fn invalid_params(alloc: Global, id: Id) -> Mem<Out>
    ensures { IfOk result (λ out. Says out (session.invalid_params (said_id id) ∷ [])) }
{
    Ok(error(alloc, Some(id), INVALID_PARAMS, wording::INVALID_PARAMS)?)
}

/// The reply to a request before `initialize`.
pub fn not_initialized(alloc: Global, id: Id) -> Mem<Out>
    ensures { IfOk result (λ out. Says out (session.not_initialized (said_id id) ∷ [])) }
{
    Ok(error(
        alloc,
        Some(id),
        SERVER_NOT_INITIALIZED,
        wording::SERVER_NOT_INITIALIZED,
    )?)
}

/// The reply to a request that a notification behind it cancels.
pub fn request_cancelled(alloc: Global, id: Id) -> Mem<Out>
    ensures { IfOk result (λ out. Says out (ahead.request_cancelled (said_id id) ∷ [])) }
{
    Ok(error(
        alloc,
        Some(id),
        REQUEST_CANCELLED,
        wording::REQUEST_CANCELLED,
    )?)
}

/// What the server can do.
pub fn capabilities(alloc: Global, id: Id, prepare: bool, encoding: Encoding) -> Mem<Out>
    ensures { IfOk result (λ out. Says out
        (session.Capabilities (said_id id) prepare (said_encoding encoding) ∷ [])) }
{
    said(
        alloc,
        Reply::Capabilities {
            id,
            prepare,
            encoding,
        },
    )
}

/// The reply with an answer.
pub fn answered(alloc: Global, id: Id, answer: Answer) -> Mem<Out>
    ensures { IfOk result (λ out. (question : Question) → IsAnswerTo question answer
        → Says out (session.Result (said_id id) question ∷ [])) }
{
    said(alloc, Reply::Result { id, answer })
}

/// The reply to a rename: its edits.
pub fn renamed(alloc: Global, id: Id, edits: Items<DocEdits>) -> Mem<Out>
    ensures { IfOk result (λ out. out ≡ record { replies = Reply.Result id (Answer.Edits edits) ∷ []; end = None }) }
{
    let answer = Answer::Edits(edits);
    said(alloc, Reply::Result { id, answer })
}

/// The reply to a rename that is refused.
pub fn request_failed(alloc: Global, id: Id, text: Text) -> Mem<Out>
    ensures { IfOk result (λ out. out ≡ record { replies = Reply.Error (Some id) (session.minus 32803) text ∷ []; end = None }) }
{
    said(
        alloc,
        Reply::Error {
            id: Some(id),
            code: REQUEST_FAILED,
            text,
        },
    )
}

/// A text for the client's log: what is wrong, and with what.
pub fn log(alloc: Global, wrong: &str, name: &str) -> Mem<Reply>
    ensures { IfOk result (λ reply. reply ≡ Reply.Log (wrong.now ++ name.now)) }
{
    let mut text = String::from_str(alloc, wrong)?;
    text.push_str(name)?;
    Ok(Reply::Log(Text::from_string(text)))
}

/// Such a text alone.
pub fn logged(alloc: Global, wrong: &str, name: &str) -> Mem<Out>
    ensures { IfOk result (λ out. Says out (session.Log (wrong.now ++ name.now) ∷ [])) }
{
    said(alloc, log(alloc, wrong, name)?)
}
