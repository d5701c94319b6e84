//! The diagnostics of documents as lists, and which of them are published after an event (LSP 3.17, publishDiagnostics).
ghost use Rattle.std.specs.Prelude.{◌≡◌, ◌≢◌, ◌≤◌, ◌+◌, List, ℕ, length, map, Some, IfOk, OnOk, Decides, MatchBool};
ghost use Rattle.std.specs.BTreeMap.{get_by_text, IsOrdered};
ghost use Rattle.std.specs.String.{string_cmp};
ghost use Rattle.std.specs.FinMap.{entries};
ghost use Rattle.ls_base.specs.Positions.{position_of};
ghost use Rattle.text_positions.specs.Lines.{AreLinesOf};
ghost use Rattle.document_store.specs.Texts.{Texts, text_at};
ghost use Rattle.read_documents.specs.Readings.{Read, AreReadAs, AreDocuments};
ghost use Rattle.read_documents.specs.Listed.{range_of, found_told, lists_told, AreFoundOf};
ghost use Rattle.program_answers.specs.Updates.{entries_shown, list_at, AreListsOf, IsNews, Puts, OthersStay, ArePublished};
ghost use Rattle.program_answers.specs.Listings.{or_none};

use crate::open::Open;
use crate::publications::Published;
use document_store::Store;
use ls_base::{Diagnostic, Encoding, Items, Mem, Range, Span, Text};
use read_documents::documents::Document;
use read_documents::findings::{Sorted, severity};
use std::alloc::Global;
use std::collections::BTreeMap;
use text_positions::Lines;

/// The diagnostics of the open documents, by uri.
pub type Lists = BTreeMap<String, Items<Diagnostic>>;

/// The diagnostics of all documents.
pub fn lists(alloc: Global, opened: &Open, findings: &[Sorted], encoding: Encoding) -> Mem<Lists>
    requires { length findings.now ≡ length (entries opened.now) }
    ensures told { IfOk result (λ lists. entries_shown lists ≡ lists_told encoding (entries opened.now) findings.now) }
    ensures listed { (rs : List Read) → AreReadAs (entries opened.now) rs → AreFoundOf rs findings.now →
        IfOk result (λ lists. AreListsOf encoding opened.now rs (entries_shown lists)) }
{
    let mut lists = BTreeMap::new(alloc);
    let store = opened.store();
    let documents = opened.documents();
    for (place, document) in documents.iter().enumerate() {
        let text = text_in(store, document);
        let list = list(alloc, &document.lines, text, &findings[place], encoding)?;
        lists.insert(String::from_str(alloc, document.uri.as_str())?, list)?;
    }
    Ok(lists)
}

/// The text of a document.
pub fn text_in<'a>(store: &'a Store, document: &Document) -> &'a str
    ensures { (text : List ℕ) → text_at store.now document.now.uri ≡ Some text → result.now ≡ text }
{
    match store.text(document.uri.as_str()) {
        Some(text) => text,
        None => "",
    }
}

/// The diagnostics of a document, in their order.
fn list(
    alloc: Global,
    lines: &Lines,
    text: &str,
    findings: &Sorted,
    encoding: Encoding,
) -> Mem<Items<Diagnostic>>
    requires { AreLinesOf lines.now text.now }
    ensures { IfOk result (λ list. list ≡ map (found_told encoding text.now) findings.now.entries) }
{
    let mut list = Items::new(alloc);
    for ((start, code, message), end) in findings.iter() {
        let span = Span {
            start: *start,
            end: *end,
        };
        list.push(Diagnostic {
            range: range(lines, text, span, encoding),
            code: *code,
            severity: severity(*code),
            message: message.clone()?,
        })?;
    }
    Ok(list)
}

/// Bytes as positions.
pub fn range(lines: &Lines, text: &str, span: Span, encoding: Encoding) -> Range
    requires { AreLinesOf lines.now text.now }
    ensures { result ≡ range_of encoding text.now span.start span.end }
{
    Range {
        start: lines.position(text, span.start, encoding),
        end: lines.position(text, span.end, encoding),
    }
}

/// What is published after an event: the list of its document, and each that isn't as before, in the order of the uris.
pub fn published(
    alloc: Global,
    changed: &str,
    documents: &[Document],
    before: &Lists,
    now: &Lists,
) -> Mem<Items<Published>>
    ensures news { (texts : Texts) → AreDocuments (entries texts) documents.now → OthersStay changed.now texts (list_at before.now) (list_at now.now) →
        IfOk result (ArePublished changed.now texts (list_at before.now) (list_at now.now)) }
    ensures few { IfOk result (λ lists. length lists ≤ length documents.now + 1) }
{
    let mut all = BTreeMap::new(alloc);
    put(alloc, &mut all, changed, None, now)?;
    for document in documents {
        let uri = document.uri.as_str();
        if is_news(changed, uri, before, now) {
            put(alloc, &mut all, uri, Some(version_of(document)), now)?;
        }
    }
    Ok(in_order(alloc, all)?)
}

/// The version of a document.
fn version_of(document: &Document) -> i64
    ensures { result ≡ document.now.version }
{
    document.version
}

/// Whether the list of a document is published: it is that of the event's document, or it isn't as it was.
fn is_news(changed: &str, uri: &str, before: &Lists, now: &Lists) -> bool
    ensures { MatchBool result (IsNews changed.now (list_at before.now) (list_at now.now) uri.now)
        ((uri.now ≢ changed.now) × (list_at now.now uri.now ≡ list_at before.now uri.now)) }
{
    uri == changed || !same_list(listed(now, uri), listed(before, uri))
}

/// Puts a document with its diagnostics to those that are published.
fn put(
    alloc: Global,
    all: &mut BTreeMap<String, Published>,
    uri: &str,
    version: Option<i64>,
    now: &Lists,
) -> Mem<()>
    ensures puts { OnOk result (Puts all.old all.new (record { uri = uri.now; version = version; list = list_at now.now uri.now })) }
    ensures ordered { OnOk result (IsOrdered string_cmp all.new) }
    ensures one_more { OnOk result (length all.new.entries ≤ length all.old.entries + 1) }
{
    let key = String::from_str(alloc, uri)?;
    all.insert(key, published_as(alloc, uri, version, now)?)?;
    Ok(())
}

/// A document with its diagnostics.
fn published_as(alloc: Global, uri: &str, version: Option<i64>, now: &Lists) -> Mem<Published>
    ensures uri { IfOk result (λ p. p.uri ≡ uri.now) }
    ensures version { IfOk result (λ p. p.version ≡ version) }
    ensures list { IfOk result (λ p. p.list ≡ or_none (get_by_text now.now uri.now)) }
{
    Ok(Published {
        uri: Text::of(alloc, uri)?,
        version,
        list: copy_of(alloc, listed(now, uri))?,
    })
}

/// The diagnostics of a document, of which one that isn't open has none.
fn listed<'a>(lists: &'a Lists, uri: &str) -> &'a [Diagnostic]
    ensures { result.now ≡ or_none (get_by_text lists.now uri.now) }
{
    match lists.get(uri) {
        Some(list) => list.as_slice(),
        None => &[],
    }
}

/// Whether two lists are the same.
fn same_list(a: &[Diagnostic], b: &[Diagnostic]) -> bool
    ensures { Decides result (a.now ≡ b.now) }
{
    if a.len() != b.len() {
        return false;
    }
    for (x, y) in a.iter().zip(b.iter()) {
        if !same_diagnostic(x, y) {
            return false;
        }
    }
    true
}

/// Whether two diagnostics are the same.
fn same_diagnostic(a: &Diagnostic, b: &Diagnostic) -> bool
    ensures { Decides result (a.now ≡ b.now) }
{
    a.range == b.range
        && a.code == b.code
        && a.severity == b.severity
        && a.message.as_str() == b.message.as_str()
}

/// A copy of diagnostics.
fn copy_of(alloc: Global, list: &[Diagnostic]) -> Mem<Items<Diagnostic>>
    ensures { IfOk result (λ copy. copy ≡ list.now) }
{
    let mut copy = Items::new(alloc);
    for diagnostic in list {
        copy.push(Diagnostic {
            range: diagnostic.range,
            code: diagnostic.code,
            severity: diagnostic.severity,
            message: diagnostic.message.clone()?,
        })?;
    }
    Ok(copy)
}

/// Lists in the order of their uris.
fn in_order(alloc: Global, all: BTreeMap<String, Published>) -> Mem<Items<Published>>
    ensures { IfOk result (λ lists. lists ≡ map (λ e. e.1) all.entries) }
{
    let mut lists = Items::new(alloc);
    for (_, list) in all.into_iter() {
        lists.push(list)?;
    }
    Ok(lists)
}
