//! The open documents as they are read: their data, or why there are none (R7RS 7.1.2).
ghost use Rattle.std.specs.Prelude.{◌≡◌, ℕ, ◌<◌, ◌≤◌, List, length, map, slice_get, None, IfOk, IfErr, OnOk};
ghost use Rattle.std.specs.Option.{option_map};
ghost use Rattle.std.specs.FinMap.{entries};
ghost use Rattle.std.specs.Str.{chars};
ghost use Rattle.ls_base.specs.Limits.{max_documents, max_text};
ghost use Rattle.scheme_model.specs.Kinds.{Token as ModelToken};
ghost use Rattle.datum_reader.specs.Texts.{TextReads, IsReading, StopsAt, Explains};
ghost use Rattle.datum_reader.specs.Views.{data_of};
ghost use Rattle.document_store.specs.Texts.{Document as Entry};
ghost use Rattle.read_documents.specs.Readings.{Read, uri_of, span_of, stop_of, span_seen, first_unread, AreReadAs, IsReadAs, IsToldSo, IsDocument, AreDocuments, AddsDocument};
ghost use Rattle.read_documents.specs.Stored.{opened as seen};
ghost use Rattle.read_documents.specs.DataRead.{AreReadIn, DataWereRead};

use crate::opened::{Opened, nth};
use datum_reader::{Datum, read_with_spans};
use document_store::Store;
use ls_base::limits::MAX_DOCUMENTS;
use ls_base::{Items, Mem, Memory, Span, Text};
use scheme_tokens::ReadFault;
use std::alloc::Global;
use text_positions::Lines;

/// Where a text can't be read on, and why, by number.
#[derive(Clone, Copy)]
pub struct Unread {
    pub number: u8,
    pub span: Span,
}

/// A document: its uri and version, where its lines begin, the bytes of its tokens, and its data, or why it has none.
#[derive(Drop)]
pub struct Document {
    pub uri: Text,
    pub version: i64,
    pub lines: Lines,
    pub spans: Vec<Span>,
    pub items: Items<Datum>,
    pub fault: Option<Unread>,
}

/// All open documents, in the order of their uris.
pub fn read(alloc: Global, store: &Store) -> Mem<Vec<Document>>
    ensures documents { IfOk result (λ documents. AreDocuments (entries store.now) documents.items) }
    ensures read { IfOk result (λ documents. AreReadIn documents.items) }
    ensures few { IfOk result (λ documents. length (entries store.now) ≤ max_documents) }
{
    let mut documents = Vec::new(alloc);
    for n in 0..MAX_DOCUMENTS as u32 {
        add_document(alloc, store, &mut documents, n)?;
    }
    Ok(documents)
}

/// Adds the nth document, where there is one.
#[tactic(auto, using(crate::proofs::DocumentLaws::document_added, crate::proofs::DocumentLaws::none_added, crate::proofs::DocumentLaws::read_more))]
fn add_document(alloc: Global, store: &Store, documents: &mut Vec<Document>, n: u32) -> Mem<()>
    ensures adds { OnOk result (AddsDocument documents.old.items documents.new.items (slice_get (entries store.now) n)) }
    ensures read { AreReadIn documents.old.items → OnOk result (AreReadIn documents.new.items) }
    ensures few { length (entries store.now) ≤ max_documents }
{
    if let Some(opened) = nth(store, n) {
        documents.push(read_document(alloc, opened)?)?;
    }
    Ok(())
}

/// A document as it is read.
fn read_document(alloc: Global, opened: Opened<'_>) -> Mem<Document>
    requires { length opened.text.now ≤ max_text }
    ensures document { IfOk result (IsDocument (seen opened.entry)) }
    ensures read { IfOk result (λ document. DataWereRead document.items) }
{
    match data_in(alloc, opened.text) {
        Ok((spans, items)) => document_of(alloc, opened, spans, items, None),
        Err(ReadFault::At { number, span }) => stopped(alloc, opened, Unread { number, span }),
        Err(ReadFault::Memory) => Err(Memory),
    }
}

/// A document by what is read of it.
fn document_of(
    alloc: Global,
    opened: Opened<'_>,
    spans: Vec<Span>,
    items: Items<Datum>,
    fault: Option<Unread>,
) -> Mem<Document>
    requires { length opened.text.now ≤ max_text }
    ensures document { (read : Read) → IsReadAs opened.entry.text.now read → uri_of read ≡ opened.entry.uri.now → IsToldSo items spans.items fault read → IfOk result (IsDocument (seen opened.entry)) }
    ensures read { DataWereRead items → IfOk result (λ document. DataWereRead document.items) }
{
    let Opened { uri, version, text } = opened;
    let uri = Text::of(alloc, uri)?;
    let lines = Lines::of(alloc, text)?;
    Ok(Document {
        uri,
        version,
        lines,
        spans,
        items,
        fault,
    })
}

/// A document that can't be read on.
fn stopped(alloc: Global, opened: Opened<'_>, unread: Unread) -> Mem<Document>
    requires { length opened.text.now ≤ max_text }
    ensures document { StopsAt (chars opened.entry.text.now) (stop_of unread) → IfOk result (IsDocument (seen opened.entry)) }
    ensures read { IfOk result (λ document. DataWereRead document.items) }
{
    let spans = Vec::new(alloc);
    let items = Items::new(alloc);
    document_of(alloc, opened, spans, items, Some(unread))
}

/// The bytes of a text's tokens and its data, or why there are none.
fn data_in(alloc: Global, text: &str) -> Result<(Vec<Span>, Items<Datum>), ReadFault>
    requires { length text.now ≤ max_text }
    ensures found { IfOk result (λ read. IsReading (chars text.now) (data_of read.1)) }
    ensures spans { (ts : List ModelToken) → TextReads (chars text.now) ts None → IfOk result (λ read. map span_seen read.0.items ≡ map span_of ts) }
    ensures read { IfOk result (λ read. DataWereRead read.1) }
    ensures fault { IfErr result (λ e. Explains e (chars text.now)) }
{
    let read = read_with_spans(alloc, text)?;
    Ok(read)
}

/// The first document that doesn't read. `None` where all do.
pub fn first_unread(documents: &[Document]) -> Option<&str>
    ensures { (ds : List (List ℕ × Entry)) (rs : List Read) → AreDocuments ds documents.now → AreReadAs ds rs → option_map (λ uri. uri.now) result ≡ first_unread ds rs }
{
    for document in documents {
        if document.fault.is_some() {
            return Some(document.uri.as_str());
        }
    }
    None
}
