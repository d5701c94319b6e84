//! The lines of what a rename answers: its edits, or the refusal.
ghost use Rattle.std.specs.Prelude.{◌≡◌, IfOk};
ghost use Rattle.std.specs.String.{string_bytes};
ghost use Rattle.command_lines.specs.Edits as spec;

use crate::places::place_text;
use ls_base::{DocEdits, TextEdit};
use std::alloc::{AllocError, Global};

/// The lines of edits, document by document, in their order.
pub fn edit_lines(alloc: Global, edits: &[DocEdits]) -> Result<String, AllocError>
    ensures { IfOk result (λ text. string_bytes text ≡ spec.edit_lines edits.now) }
{
    let mut text = String::new(alloc);
    for document in edits {
        let lines = document_lines(alloc, document.uri.as_str(), document.edits.as_slice())?;
        text.push_str(lines.as_str())?;
    }
    Ok(text)
}

/// The lines of the edits of a document.
fn document_lines(alloc: Global, uri: &str, edits: &[TextEdit]) -> Result<String, AllocError>
    ensures { IfOk result (λ text. string_bytes text ≡ spec.document_lines uri.now edits.now) }
{
    let mut text = String::new(alloc);
    for edit in edits {
        let line = edit_line(alloc, uri, edit)?;
        text.push_str(line.as_str())?;
    }
    Ok(text)
}

/// The line of an edit: the range that it replaces, and the new text.
fn edit_line(alloc: Global, uri: &str, edit: &TextEdit) -> Result<String, AllocError>
    ensures { IfOk result (λ text. string_bytes text ≡ spec.edit_line uri.now edit.now) }
{
    let start = place_text(alloc, edit.range.start)?;
    let end = place_text(alloc, edit.range.end)?;
    let new_text = edit.new_text.as_str();
    format!(in alloc; "{uri}:{start}-{end}: {new_text}\n")
}

/// The line of a refusal.
pub fn refusal_line(alloc: Global, refusal: &str) -> Result<String, AllocError>
    ensures { IfOk result (λ text. string_bytes text ≡ spec.refusal_line refusal.now) }
{
    format!(in alloc; "{refusal}\n")
}
