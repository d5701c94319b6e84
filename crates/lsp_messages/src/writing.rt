//! The body of each message to the client (JSON-RPC 2.0 section 5; LSP 3.17). What may be long, answers and
//! diagnostics, is written piece by piece; the rest goes by `Value`s.
ghost use Rattle.std.specs.Prelude.{◌≡◌, ◌≤◌, ◌++◌, Some, true, false, IfOk, OnOk, IfSome, codes};
ghost use Rattle.std.specs.String.{string_bytes};
ghost use Rattle.serde_json.specs.Data.{Members, no_members, object, depth};
ghost use Rattle.serde_json.specs.View.{view};
ghost use Rattle.serde_json.specs.Written.{members_text, has_float};
ghost use Rattle.lsp_messages.specs.Messages.{json_of};
ghost use Rattle.lsp_messages.specs.Replies as spec;
ghost use Rattle.lsp_messages.specs.Written.{IsReadable, Writes, IsBodyOf, HoldTexts};

use crate::encodings::encoding_name;
use crate::to_json::{ToJson, comma, put, write_integer, write_list, write_pair, write_string};
use crate::{Id, Reply};
use ls_base::{Answer, Diagnostic, DocEdits, Encoding, Mem};
use serde_json::{Value, json};
use std::alloc::{AllocError, Global};
use std::collections::BTreeMap;

/// The body of a message to the client: compact JSON, with the keys of each object in byte order. Of edits for
/// equal uris the last count.
pub fn reply_bytes(alloc: Global, reply: &Reply) -> Mem<Vec<u8>>
    // The text of the reply's JSON.
    ensures text { IfOk result (λ bytes. bytes.items ≡ spec.reply_text reply.now) }
    // It reads as this JSON.
    ensures reads_back { IfOk result (λ bytes. json_of bytes.items
        ≡ Some (spec.reply_json reply.now)) }
{
    Ok(body(alloc, reply)?)
}

/// The body of a message.
fn body(alloc: Global, reply: &Reply) -> Result<Vec<u8>, AllocError>
    ensures { IfOk result (λ bytes. IsBodyOf (spec.reply_json reply.now) bytes.items) }
{
    match reply {
        Reply::Capabilities {
            id,
            prepare,
            encoding,
        } => {
            let answer = initialized(alloc, *prepare, *encoding)?;
            value_bytes(alloc, answered(alloc, id, answer)?)
        }
        Reply::Result { id, answer } => {
            let mut text = String::new(alloc);
            write_answered(alloc, &mut text, id, answer)?;
            Ok(text.into_bytes())
        }
        Reply::Error { id, code, text } => {
            value_bytes(alloc, error(alloc, id, *code, text.as_str())?)
        }
        Reply::Publish { uri, version, list } => {
            let mut text = String::new(alloc);
            write_published(alloc, &mut text, uri.as_str(), *version, list.as_slice())?;
            Ok(text.into_bytes())
        }
        Reply::Log(text) => {
            let params = json!(in alloc; {"message": text.as_str(), "type": 1u8})?;
            value_bytes(alloc, notification(alloc, "window/logMessage", params)?)
        }
    }
}

/// The text of a value.
fn value_bytes(alloc: Global, value: Value) -> Result<Vec<u8>, AllocError>
    ensures { IfOk result (λ bytes. has_float (view value) ≡ false → depth (view value) ≤ 127
        → IsBodyOf (view value) bytes.items) }
{
    Ok(value.to_vec(alloc)?)
}

/// Writes the reply to a request.
fn write_answered(
    alloc: Global,
    text: &mut String,
    id: &Id,
    answer: &Answer,
) -> Result<(), AllocError>
    ensures { OnOk result (Writes (spec.result_json id.now (spec.answer_json answer.now))
        (string_bytes text.old) (string_bytes text.new)) }
{
    write_pair(
        alloc,
        text,
        "{\"id\":",
        id,
        ",\"jsonrpc\":\"2.0\",\"result\":",
        answer,
    )
}

/// Writes the diagnostics of a document.
fn write_published(
    alloc: Global,
    text: &mut String,
    uri: &str,
    version: Option<i64>,
    diagnostics: &[Diagnostic],
) -> Result<(), AllocError>
    ensures { OnOk result (Writes (spec.notification_json (codes "textDocument/publishDiagnostics")
        (spec.publish_json uri.now version diagnostics.now))
        (string_bytes text.old) (string_bytes text.new)) }
{
    put(
        text,
        "{\"jsonrpc\":\"2.0\",\"method\":\"textDocument/publishDiagnostics\",\"params\":{\"diagnostics\":",
    )?;
    write_list(alloc, text, diagnostics)?;
    put(text, ",\"uri\":")?;
    write_string(alloc, text, uri)?;
    write_version(text, version)?;
    put(text, "}")?;
    Ok(())
}

/// Writes what follows the uri: the version, where there is one, and the brace that closes the object.
fn write_version(text: &mut String, version: Option<i64>) -> Result<(), AllocError>
    ensures appended { OnOk result (string_bytes text.new
        ≡ string_bytes text.old ++ members_text true (spec.version_member version)) }
    ensures readable { OnOk result (IfSome version (λ v. IsReadable (spec.integer_json v))) }
{
    match version {
        None => put(text, "}"),
        Some(version) => {
            put(text, ",\"version\":")?;
            write_integer(text, version)?;
            put(text, "}")?;
            Ok(())
        }
    }
}

/// The reply to `initialize`.
fn answered(alloc: Global, id: &Id, answer: Value) -> Result<Value, AllocError>
    ensures { IfOk result (λ v. view v ≡ spec.result_json id.now (view answer)) }
{
    let id = id_value(alloc, id)?;
    json!(in alloc; {"id": id, "jsonrpc": "2.0", "result": answer})
}

/// The JSON of an id.
fn id_value(alloc: Global, id: &Id) -> Result<Value, AllocError>
    ensures { IfOk result (λ v. view v ≡ spec.id_json id.now) }
{
    match id {
        Id::Number(number) => Ok(Value::from(*number)),
        Id::Name(name) => Ok(Value::try_from_str(alloc, name.as_str())?),
    }
}

/// An error reply.
fn error(alloc: Global, id: &Option<Id>, code: i32, text: &str) -> Result<Value, AllocError>
    ensures { IfOk result (λ v. view v ≡ spec.error_json id.now code text.now) }
{
    let id = match id {
        None => Value::Null,
        Some(id) => id_value(alloc, id)?,
    };
    let error = json!(in alloc; {"code": code, "message": text})?;
    json!(in alloc; {"error": error, "id": id, "jsonrpc": "2.0"})
}

/// A notification.
fn notification(alloc: Global, method: &str, params: Value) -> Result<Value, AllocError>
    ensures { IfOk result (λ v. view v ≡ spec.notification_json method.now (view params)) }
{
    json!(in alloc; {"jsonrpc": "2.0", "method": method, "params": params})
}

/// What the server can do.
fn initialized(alloc: Global, prepare: bool, encoding: Encoding) -> Result<Value, AllocError>
    ensures { IfOk result (λ v. view v ≡ spec.initialized_json prepare encoding) }
{
    let capabilities = capabilities(alloc, prepare, encoding)?;
    json!(in alloc; {"capabilities": capabilities, "serverInfo": {"name": "scheme_ls"}})
}

/// The capabilities.
fn capabilities(alloc: Global, prepare: bool, encoding: Encoding) -> Result<Value, AllocError>
    ensures { IfOk result (λ v. view v ≡ spec.capabilities_json prepare encoding) }
{
    let renames = renames(alloc, prepare)?;
    let encoding = encoding_name(encoding);
    json!(in alloc; {
        "definitionProvider": true,
        "documentHighlightProvider": true,
        "positionEncoding": encoding,
        "referencesProvider": true,
        "renameProvider": renames,
        "textDocumentSync": {"change": 2u8, "openClose": true}
    })
}

/// The capabilities of renames.
fn renames(alloc: Global, prepare: bool) -> Result<Value, AllocError>
    ensures { IfOk result (λ v. view v ≡ spec.rename_json prepare) }
{
    if prepare {
        json!(in alloc; {"prepareProvider": true})
    } else {
        Ok(Value::Bool(true))
    }
}

impl ToJson for Id {
    ghost use Rattle.lsp_messages.specs.Replies.{id_json};

    ghost json = { id_json };

    fn write_json(&self, alloc: Global, text: &mut String) -> Result<(), AllocError> {
        match self {
            Id::Number(number) => write_integer(text, *number),
            Id::Name(name) => write_string(alloc, text, name.as_str()),
        }
    }
}

impl ToJson for Answer {
    ghost use Rattle.lsp_messages.specs.Replies.{answer_json};

    ghost json = { answer_json };

    fn write_json(&self, alloc: Global, text: &mut String) -> Result<(), AllocError> {
        match self {
            Answer::Nothing => put(text, "null"),
            Answer::Places(places) => write_list(alloc, text, places.as_slice()),
            Answer::Highlights(highlights) => write_list(alloc, text, highlights.as_slice()),
            Answer::Prepared { range, placeholder } => write_pair(
                alloc,
                text,
                "{\"placeholder\":",
                placeholder,
                ",\"range\":",
                range,
            ),
            Answer::Arrows(arrows) => write_list(alloc, text, arrows.as_slice()),
            Answer::Edits(edits) => write_changes(alloc, text, edits.as_slice()),
        }
    }
}

/// Writes the edits of each document under its uri.
fn write_changes(alloc: Global, text: &mut String, edits: &[DocEdits]) -> Result<(), AllocError>
    ensures { OnOk result (Writes (spec.edits_json edits.now) (string_bytes text.old) (string_bytes text.new)) }
{
    let documents = changes(alloc, edits)?;
    put(text, "{\"changes\":{")?;
    write_members(alloc, text, &documents)?;
    put(text, "}")?;
    Ok(())
}

/// The text of the edits of each document under its uri.
fn changes(alloc: Global, edits: &[DocEdits]) -> Result<BTreeMap<String, String>, AllocError>
    ensures texts { IfOk result (λ m. HoldTexts m.entries (spec.with_documents no_members edits.now)) }
    ensures readable { IfOk result (λ _. IsReadable (object (spec.with_documents no_members edits.now))) }
{
    let mut documents = BTreeMap::new(alloc);
    for document in edits {
        let uri = String::from_str(alloc, document.uri.as_str())?;
        let mut list = String::new(alloc);
        write_list(alloc, &mut list, document.edits.as_slice())?;
        documents.insert(uri, list)?;
    }
    Ok(documents)
}

/// Writes the members of an object whose values are written, and the brace that closes it.
fn write_members(
    alloc: Global,
    text: &mut String,
    documents: &BTreeMap<String, String>,
) -> Result<(), AllocError>
    ensures { (ms : Members) → HoldTexts documents.now.entries ms
        → OnOk result (string_bytes text.new ≡ string_bytes text.old ++ members_text false ms) }
{
    let mut later = false;
    for (uri, list) in documents.iter() {
        comma(text, later)?;
        write_string(alloc, text, uri.as_str())?;
        put(text, ":")?;
        put(text, list.as_str())?;
        later = true;
    }
    put(text, "}")
}
