//! The texts of the open documents with edits (LSP 3.17, TextEdit).
ghost use Rattle.std.specs.Prelude.{◌≡◌, ◌<◌, ◌≤◌, ℕ, List, length, map, slice_get, IfOk, OnOk};
ghost use Rattle.std.specs.Option.{option_map};
ghost use Rattle.std.specs.FinMap.{entries};
ghost use Rattle.ls_base.specs.Limits.{max_documents};
ghost use Rattle.ls_base.specs.Positions.{offset_of};
ghost use Rattle.read_documents.specs.Stored.{CopiesTo};
ghost use Rattle.program_answers.specs.ToldAnswers.{text_of};
ghost use Rattle.text_edits.specs.Views.{edit_of};
ghost use Rattle.document_changes.specs.Edited as spec;

use document_store::Store;
use ls_base::limits::MAX_DOCUMENTS;
use ls_base::{DocEdits, Encoding, Mem, Memory, Span, Text, TextEdit};
use program_answers::open::Open;
use read_documents::opened::{Opened, nth};
use std::alloc::Global;
use syntax_tree::texts::same_text;
use text_edits::{Edit, edited_text};

/// The edits of the document with a uri.
fn edits_for<'a>(edits: &'a [DocEdits], uri: &str) -> &'a [TextEdit]
    ensures { result.now ≡ spec.edits_for edits.now uri.now }
{
    for document in edits {
        if same_text(document.uri.as_str(), uri) {
            return document.edits.as_slice();
        }
    }
    &[]
}

/// Edits of a document by their bytes.
fn edits_in(
    alloc: Global,
    texts: &Open,
    document: usize,
    edits: &[TextEdit],
    encoding: Encoding,
) -> Mem<Vec<Edit>>
    requires { document < length (entries texts.now) }
    ensures { IfOk result (λ all. map edit_of all.items ≡ map (spec.edit_in encoding (text_of (entries texts.now) document)) edits.now) }
{
    let mut all = Vec::new(alloc);
    for edit in edits {
        let start = texts.offset(document, edit.range.start, encoding);
        let end = texts.offset(document, edit.range.end, encoding);
        let text = Text::of(alloc, edit.new_text.as_str())?;
        all.push(Edit {
            span: Span { start, end },
            text,
        })?;
    }
    Ok(all)
}

/// Adds the nth document to a store, edited. A refusal is answered as want of memory; none comes where the texts aren't too long.
fn add_edited(
    alloc: Global,
    store: &mut Store,
    texts: &Open,
    n: u32,
    edits: &[DocEdits],
    encoding: Encoding,
) -> Mem<()>
    requires { spec.CanEdit encoding edits.now (entries texts.now) }
    ensures copies { OnOk result (CopiesTo store.old store.new (option_map (spec.edited_document encoding edits.now) (slice_get (entries texts.now) n))) }
    ensures few { length (entries texts.now) ≤ max_documents }
{
    let Some(Opened { uri, version, text }) = nth(texts.store(), n) else {
        return Ok(());
    };
    let edits = edits_in(alloc, texts, n as usize, edits_for(edits, uri), encoding)?;
    let text = edited_text(alloc, text, edits.as_slice())?;
    match store.add(uri, version, text.as_str()) {
        Ok(()) => Ok(()),
        Err(_) => Err(Memory),
    }
}

/// The open documents, edited.
pub fn edited_store(
    alloc: Global,
    texts: &Open,
    edits: &[DocEdits],
    encoding: Encoding,
) -> Mem<Store>
    requires { spec.CanEdit encoding edits.now (entries texts.now) }
    ensures { IfOk result (λ store. store ≡ spec.edited_texts encoding edits.now texts.now) }
{
    let mut store = Store::new(alloc);
    for n in 0..MAX_DOCUMENTS as u32 {
        add_edited(alloc, &mut store, texts, n, edits, encoding)?;
    }
    Ok(store)
}
