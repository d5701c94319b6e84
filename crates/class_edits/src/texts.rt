//! The edited texts, whether one is too long, and the edits as they are told (LSP 3.17, WorkspaceEdit).
ghost use Rattle.std.specs.Prelude.{◌≡◌, ◌++◌, map, IfOk, OnOk};
ghost use Rattle.std.specs.Option.{option_map};
ghost use Rattle.std.specs.FinMap.{entries};
ghost use Rattle.text_edits.specs.Views.{edit_of};
ghost use Rattle.class_edits.specs.DocumentEdits as told;
ghost use Rattle.class_edits.specs.DocumentEdits.{CanEditAll, all_edited, seen, told_of, too_long};

use ls_base::{DocEdits, Encoding, Items, Mem, Text, TextEdit};
use program_answers::open::Open;
use std::alloc::Global;
use text_edits::{Edit, edited_text, is_too_long, placed};

/// The first document, by its uri, whose edited text has more than 1,048,576 bytes. No text is made.
pub fn first_too_long<'a>(texts: &'a Open, all: &[Items<Edit>]) -> Option<&'a str>
    requires { CanEditAll (entries texts.now) all.now }
    ensures { option_map (λ uri. uri.now) result ≡ too_long (entries texts.now) (seen all.now) }
{
    for (number, edits) in all.iter().enumerate() {
        if is_too_long(texts.text(number), edits.as_slice()) {
            return Some(texts.document(number).uri.as_str());
        }
    }
    None
}

/// The edited texts of all documents, in the order of their uris.
pub fn edited_texts(alloc: Global, texts: &Open, all: &[Items<Edit>]) -> Mem<Items<Text>>
    requires { CanEditAll (entries texts.now) all.now }
    ensures { IfOk result (λ edited. edited ≡ all_edited (entries texts.now) (seen all.now)) }
{
    let mut edited = Items::new(alloc);
    for (number, edits) in all.iter().enumerate() {
        edited.push(edited_text(alloc, texts.text(number), edits.as_slice())?)?;
    }
    Ok(edited)
}

/// The edits of those documents that have any, at positions of an encoding, in the order of their uris.
pub fn told_edits(
    alloc: Global,
    texts: &Open,
    all: &[Items<Edit>],
    encoding: Encoding,
) -> Mem<Items<DocEdits>>
    requires { CanEditAll (entries texts.now) all.now }
    ensures { IfOk result (λ edits. edits ≡ told.told encoding (entries texts.now) (seen all.now)) }
{
    let mut told = Items::new(alloc);
    for (number, edits) in all.iter().enumerate() {
        let document = texts.document(number);
        let text = texts.text(number);
        let placed = placed(alloc, &document.lines, text, edits.as_slice(), encoding)?;
        push_told(&mut told, &document.uri, placed)?;
    }
    Ok(told)
}

/// Adds the edits of a document, where it has some.
fn push_told(told: &mut Items<DocEdits>, uri: &Text, edits: Items<TextEdit>) -> Mem<()>
    ensures { OnOk result (told.new ≡ told.old ++ told_of uri.now edits) }
{
    if edits.as_slice().is_empty() {
        return Ok(());
    }
    let uri = uri.clone()?;
    Ok(told.push(DocEdits { uri, edits })?)
}
