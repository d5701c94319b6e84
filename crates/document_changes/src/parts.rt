//! Which open documents are parts of others, and which of them a string means (R7RS 4.1.7, 5.6.1).
ghost use Rattle.std.specs.Prelude.{◌≡◌, ◌<◌, List, length, map, IfOk, IfSome};
ghost use Rattle.scheme_model.specs.Includes.{Document as ModelDocument};
ghost use Rattle.included_documents.specs.Meant.{uri_at};
ghost use Rattle.read_documents.specs.DataRead.{AreOpened};
ghost use Rattle.document_changes.specs.Parts.{mark_at, meant_by, parts_in};

use document_units::included::{uris_of, views_of};
use ls_base::{Mem, Text};
use read_documents::documents::Document;
use std::alloc::Global;
use text_parts::{TextPart, text_parts};

/// Which documents are parts of others, in their order.
pub fn parts_of(alloc: Global, documents: &[Document]) -> Mem<Vec<bool>>
    ensures { (ds : List ModelDocument) → AreOpened ds documents.now → IfOk result (λ parts. parts.items ≡ parts_in ds) }
{
    let uris = uris_of(alloc, documents)?;
    let views = views_of(alloc, documents)?;
    let parts = text_parts(alloc, views.as_slice(), &uris)?;
    Ok(marks_of(alloc, parts.documents.as_slice())?)
}

/// Which of these are parts.
fn marks_of(alloc: Global, parts: &[TextPart]) -> Mem<Vec<bool>>
    ensures { IfOk result (λ marks. marks.items ≡ map (λ p. p.is_part) parts.now) }
{
    let mut marks = Vec::new(alloc);
    for part in parts {
        marks.push(part.is_part)?;
    }
    Ok(marks)
}

/// Whether the document at a place is a part, where there is one.
pub fn is_marked(marks: &[bool], place: Option<usize>) -> bool
    ensures { result ≡ mark_at marks.now place }
{
    let Some(place) = place else {
        return false;
    };
    match marks.get(place) {
        Some(mark) => *mark,
        None => false,
    }
}

/// The uri of the document at a place.
fn uri_of(documents: &[Document], place: usize) -> &Text
    requires { place < length documents.now }
    ensures { result.now ≡ uri_at (map (λ c. c.uri) documents.now) place }
{
    &documents[place].uri
}

/// The uri of the document that a string means in the document at a place. `None` exactly where it means none.
pub fn meant_uri(
    alloc: Global,
    documents: &[Document],
    place: Option<usize>,
    string: &str,
) -> Mem<Option<Text>>
    requires { IfSome place (λ n. n < length documents.now) }
    ensures { IfOk result (λ uri. uri ≡ meant_by (map (λ c. c.uri) documents.now) place string.now) }
{
    let Some(place) = place else {
        return Ok(None);
    };
    let uris = uris_of(alloc, documents)?;
    match uris.meant(alloc, place, string)? {
        Some(meant) => Ok(Some(uri_of(documents, meant).clone()?)),
        None => Ok(None),
    }
}
