//! The methods, and readers of the parameters of each (LSP 3.17, "Lifecycle Messages", "Text Document
//! Synchronization", "Language Features").
ghost use Rattle.std.specs.Prelude.{◌≡◌, option_map};
ghost use Rattle.serde_json.specs.View.{view, items_view};
ghost use Rattle.lsp_messages.specs.Fields.{Gives};
ghost use Rattle.lsp_messages.specs.Parameters as spec;

use crate::encodings::agreed_encoding;
use crate::fault::{Fault, ReadError};
use crate::fields::{boolean, field, id, integer, list, position, range, text};
use crate::{At, Call, Note};
use ls_base::{Change, Items, Pos, Query, Range, Text};
use serde_json::Value;
use std::alloc::Global;

/// What a request asks, by its method.
pub(crate) fn call(alloc: Global, method: &str, message: &Value) -> Result<Call, ReadError>
    ensures { Gives (λ c. c) result (spec.call_of method.now (view message.now)) }
{
    match method {
        "initialize" => Ok(Call::Initialize {
            prepare: prepare(message).unwrap_or(false),
            encoding: agreed_encoding(message),
        }),
        "shutdown" => Ok(Call::Shutdown),
        "textDocument/definition" => asked(alloc, message, Query::Definition),
        "textDocument/references" => references(alloc, message),
        "textDocument/documentHighlight" => asked(alloc, message, Query::Highlights),
        "textDocument/prepareRename" => asked(alloc, message, Query::Prepare),
        "textDocument/rename" => rename(alloc, message),
        "scheme/arrows" => arrows(alloc, message),
        _ => Err(ReadError::Fault(Fault::Unknown)),
    }
}

/// What a notification tells, by its method.
pub(crate) fn note(alloc: Global, method: &str, message: &Value) -> Result<Note, ReadError>
    ensures { Gives (λ n. n) result (spec.note_of method.now (view message.now)) }
{
    match method {
        "exit" => Ok(Note::Exit),
        "textDocument/didOpen" => opened(alloc, message),
        "textDocument/didChange" => changed(alloc, message),
        "textDocument/didClose" => closed(alloc, message),
        "$/cancelRequest" => cancellation(alloc, message),
        _ => Err(ReadError::Fault(Fault::Unknown)),
    }
}

/// The document that a message's parameters name.
fn document(message: &Value) -> Result<&Value, ReadError>
    ensures { Gives (λ v. view v.now) result (spec.document_in (view message.now)) }
{
    field(field(message, "params")?, "textDocument")
}

/// What a client states of prepare support, where it states anything.
fn prepare(message: &Value) -> Option<bool>
    ensures { result ≡ spec.prepare_support (view message.now) }
{
    let capabilities = message.get("params")?.get("capabilities")?;
    let rename = capabilities.get("textDocument")?.get("rename")?;
    rename.get("prepareSupport")?.as_bool()
}

/// A position in a document.
fn place(alloc: Global, message: &Value) -> Result<At, ReadError>
    ensures { Gives (λ p. p) result (spec.place_in (view message.now)) }
{
    let params = field(message, "params")?;
    let document = field(params, "textDocument")?;
    let uri = Text::of(alloc, text(document, "uri")?)?;
    let pos = position(params, "position")?;
    Ok(At { uri, pos })
}

/// A question about a position.
fn asked(alloc: Global, message: &Value, query: Query) -> Result<Call, ReadError>
    ensures { Gives (λ c. c) result (spec.asked_there query (view message.now)) }
{
    let at = place(alloc, message)?;
    Ok(Call::Ask { at, query })
}

/// Whether declarations count among references.
fn declaration(message: &Value) -> Result<bool, ReadError>
    ensures { Gives (λ b. b) result (spec.asks_declaration (view message.now)) }
{
    let params = field(message, "params")?;
    let context = field(params, "context")?;
    boolean(context, "includeDeclaration")
}

/// The references of what stands at a position.
fn references(alloc: Global, message: &Value) -> Result<Call, ReadError>
    ensures { Gives (λ c. c) result (spec.references_asked (view message.now)) }
{
    let declaration = declaration(message)?;
    Ok(asked(alloc, message, Query::References { declaration })?)
}

/// A rename of what stands at a position.
fn rename(alloc: Global, message: &Value) -> Result<Call, ReadError>
    ensures { Gives (λ c. c) result (spec.rename_asked (view message.now)) }
{
    let at = place(alloc, message)?;
    let new_name = Text::of(alloc, text(field(message, "params")?, "newName")?)?;
    Ok(Call::Rename { at, new_name })
}

/// The arrows of a document.
fn arrows(alloc: Global, message: &Value) -> Result<Call, ReadError>
    ensures { Gives (λ c. c) result (spec.arrows_asked (view message.now)) }
{
    let uri = Text::of(alloc, text(document(message)?, "uri")?)?;
    let pos = Pos {
        line: 0,
        character: 0,
    };
    Ok(Call::Ask {
        at: At { uri, pos },
        query: Query::Arrows,
    })
}

/// An opened document.
fn opened(alloc: Global, message: &Value) -> Result<Note, ReadError>
    ensures { Gives (λ n. n) result (spec.opened_in (view message.now)) }
{
    let document = document(message)?;
    let uri = Text::of(alloc, text(document, "uri")?)?;
    let version = integer(document, "version")?;
    let text = Text::of(alloc, text(document, "text")?)?;
    Ok(Note::Opened { uri, version, text })
}

/// The range that a change replaces, or none where it is of the whole text.
fn replaced_range(value: Option<&Value>) -> Result<Option<Range>, ReadError>
    ensures { Gives (λ r. r) result
        (spec.replaced_range (option_map (λ v. view v.now) value.entry)) }
{
    match value {
        None => Ok(None),
        Some(value) => Ok(Some(range(value)?)),
    }
}

/// A change of a document.
fn change(alloc: Global, value: &Value) -> Result<Change, ReadError>
    ensures { Gives (λ c. c) result (spec.change_of (view value.now)) }
{
    let range = replaced_range(value.get("range"))?;
    let text = Text::of(alloc, text(value, "text")?)?;
    Ok(Change { range, text })
}

/// A list of changes.
fn changes(alloc: Global, values: &[Value]) -> Result<Items<Change>, ReadError>
    ensures { Gives (λ c. c) result (spec.changes_of (items_view values.now)) }
{
    let mut changes = Items::new(alloc);
    for value in values {
        changes.push(change(alloc, value)?)?;
    }
    Ok(changes)
}

/// A changed document.
fn changed(alloc: Global, message: &Value) -> Result<Note, ReadError>
    ensures { Gives (λ n. n) result (spec.changed_in (view message.now)) }
{
    let params = field(message, "params")?;
    let document = field(params, "textDocument")?;
    let uri = Text::of(alloc, text(document, "uri")?)?;
    let version = integer(document, "version")?;
    let changes = changes(alloc, list(params, "contentChanges")?)?;
    Ok(Note::Changed {
        uri,
        version,
        changes,
    })
}

/// A closed document.
fn closed(alloc: Global, message: &Value) -> Result<Note, ReadError>
    ensures { Gives (λ n. n) result (spec.closed_in (view message.now)) }
{
    let uri = Text::of(alloc, text(document(message)?, "uri")?)?;
    Ok(Note::Closed { uri })
}

/// What stands where a cancellation names an id.
fn named_value(message: &Value) -> Option<&Value>
    ensures { option_map (λ v. view v.now) result ≡ spec.named_value (view message.now) }
{
    message.get("params")?.get("id")
}

/// A cancellation of a request. Without a valid id it is passed over.
fn cancellation(alloc: Global, message: &Value) -> Result<Note, ReadError>
    ensures { Gives (λ n. n) result (Ok (spec.cancellation_in (view message.now))) }
{
    let Some(value) = named_value(message) else {
        return Ok(Note::Other);
    };
    match id(alloc, value)? {
        None => Ok(Note::Other),
        Some(id) => Ok(Note::Cancel { id }),
    }
}
