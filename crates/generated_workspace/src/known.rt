//! What is known of diagnostics by what was published (LSP 3.17, publishDiagnostics): of each document the list that was published last.
ghost use Rattle.std.specs.Prelude.{◌≡◌, ◌+◌, ℕ, List, length, IfOk, OnOk};
ghost use Rattle.std.specs.List.{fold, sum_by};
ghost use Rattle.read_documents.specs.declared.documents.Document as read;
ghost use Rattle.program_answers.specs.Updates.{list_at};
ghost use Rattle.generated_workspace.specs.Known.{with_published};

use ls_base::{Diagnostic, Items, Mem, Range};
use program_answers::lists::Lists;
use program_answers::publications::Published;
use read_documents::documents::Document;
use std::alloc::Global;

/// Keeps the lists that are published, each in place of the one before.
pub fn learn(known: &mut Lists, lists: Items<Published>) -> Mem<()>
    ensures { (uri : List ℕ) → OnOk result (list_at known.new uri ≡ fold with_published (list_at known.old) lists uri) }
{
    for published in lists.into_vec() {
        learn_one(known, published)?;
    }
    Ok(())
}

/// Keeps a list that is published.
fn learn_one(known: &mut Lists, published: Published) -> Mem<()>
    ensures { (uri : List ℕ) → OnOk result (list_at known.new uri ≡ with_published (list_at known.old) published uri) }
{
    let Published { uri, list, .. } = published;
    known.insert(uri.into_string(), list)?;
    Ok(())
}

/// How many diagnostics the documents have.
pub fn count_diagnostics(alloc: Global, documents: &[Document], known: &Lists) -> Mem<usize>
    ensures { IfOk result (λ count. count ≡ sum_by (λ (d : read.Document). length (list_at known.now d.uri)) documents.now) }
{
    let mut ranges = Items::new(alloc);
    for document in documents {
        add_ranges(&mut ranges, listed(known, document.uri.as_str()))?;
    }
    Ok(ranges.as_slice().len())
}

/// The list of a document that was published last.
fn listed<'a>(known: &'a Lists, uri: &str) -> &'a [Diagnostic]
    ensures { result.now ≡ list_at known.now uri.now }
{
    match known.get(uri) {
        Some(list) => list.as_slice(),
        None => &[],
    }
}

/// Adds the ranges of diagnostics.
fn add_ranges(ranges: &mut Items<Range>, list: &[Diagnostic]) -> Mem<()>
    ensures { OnOk result (length ranges.new ≡ length ranges.old + length list.now) }
{
    for diagnostic in list {
        ranges.push(diagnostic.range)?;
    }
    Ok(())
}
