//! Which documents each document names.
ghost use Rattle.std.specs.Prelude.{◌≡◌, ◌<◌, ◌||◌, ℕ, length, option_to_list, replicate, false, IfOk, OnOk};
ghost use Rattle.std.specs.List.{filter_map};
ghost use Rattle.scheme_model.specs.Includes.{is_among, names_of, naming};
ghost use Rattle.datum_reader.specs.Views.{data_of};
ghost use Rattle.included_documents.specs.Meant.{meant};
ghost use Rattle.included_strings.specs.Strings.{texts_in_all, texts_now};
ghost use Rattle.text_parts.specs.Documents.{document_of, documents_in};
ghost use Rattle.text_parts.specs.Marks.{Marks, Rows, marked};

use crate::marks::mark;
use crate::texts::TextRead;
use datum_reader::Datum;
use included_documents::Uris;
use included_strings::strings_in;
use ls_base::{Items, Mem};
use std::alloc::Global;

/// Marks the document that a string means, if it means one.
fn note(marks: &mut Vec<bool>, place: Option<usize>)
    ensures size { length marks.new.items ≡ length marks.old.items }
    ensures told { (k : ℕ) → k < length marks.old.items → marked marks.new.items k ≡ (marked marks.old.items k || is_among (option_to_list place) k) }
{
    if let Some(place) = place {
        mark(marks, place);
    }
}

/// Marks the documents that strings of a document mean.
fn note_all(
    alloc: Global,
    uris: &Uris,
    document: usize,
    strings: &[&str],
    marks: &mut Vec<bool>,
) -> Mem<()>
    requires { document < length uris.now }
    ensures size { OnOk result (length marks.new.items ≡ length marks.old.items) }
    ensures told { OnOk result ((k : ℕ) → k < length marks.old.items →
        marked marks.new.items k ≡ (marked marks.old.items k || is_among (filter_map (meant uris.now document) (texts_now strings.now)) k)) }
{
    for string in strings {
        let place = uris.meant(alloc, document, string)?;
        note(marks, place);
    }
    Ok(())
}

/// So many marks that aren't set.
fn no_marks(alloc: Global, count: usize) -> Mem<Vec<bool>>
    ensures { IfOk result (λ marks. marks.items ≡ replicate count false) }
{
    Ok(vec![in alloc; false; count]?)
}

/// Which of so many documents are meant by the strings of a document's data.
fn names_of(
    alloc: Global,
    uris: &Uris,
    document: usize,
    data: &[Datum],
    count: usize,
) -> Mem<Items<bool>>
    requires { document < length uris.now }
    ensures { IfOk result (λ names. Marks names count (filter_map (meant uris.now document) (texts_in_all (data_of data.now)))) }
{
    let strings = strings_in(alloc, data)?;
    let mut marks = no_marks(alloc, count)?;
    note_all(alloc, uris, document, strings.as_slice(), &mut marks)?;
    Ok(Items::from_vec(marks))
}

/// Which documents a document names: none where its text doesn't read.
fn names_in(
    alloc: Global,
    uris: &Uris,
    document: usize,
    text: &TextRead<'_>,
    count: usize,
) -> Mem<Items<bool>>
    requires { document < length uris.now }
    ensures { IfOk result (λ names. Marks names count (names_of (document_of uris.now document text.now))) }
{
    if text.reads {
        return Ok(names_of(alloc, uris, document, text.data, count)?);
    }
    Ok(names_of(alloc, uris, document, &[], count)?)
}

/// Which documents each names.
pub fn naming(alloc: Global, texts: &[TextRead<'_>], uris: &Uris) -> Mem<Vec<Items<bool>>>
    requires { length texts.now ≡ length uris.now }
    ensures { IfOk result (λ rows. Rows rows.items (naming (documents_in uris.now texts.now))) }
{
    let mut rows = Vec::new(alloc);
    for (document, text) in texts.iter().enumerate() {
        rows.push(names_in(alloc, uris, document, text, texts.len())?)?;
    }
    Ok(rows)
}
