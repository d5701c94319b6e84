//! What documents are to one another: parts of others, on circles, texts that can be included.
ghost use Rattle.std.specs.Prelude.{◌≡◌, ◌<◌, ◌&&◌, ◌||◌, not, nat_lt, ℕ, List, length, IfOk};
ghost use Rattle.std.specs.List.{list_any};
ghost use Rattle.std.specs.Option.{is_some};
ghost use Rattle.scheme_model.specs.Includes.{Document, Naming, document_at, is_among, is_part, max_units, naming};
ghost use Rattle.text_parts.specs.Documents.{documents_in};
ghost use Rattle.text_parts.specs.Marks.{Rows};
ghost use Rattle.text_parts.specs.Parts.{IsOrder, IsReach, IsTextPart};
ghost use Rattle.text_parts.specs.Places.{Each};
ghost use Rattle.text_parts.specs.Programs.{IsProgramPlace};

use crate::marks::is_marked;
use crate::naming::naming;
use crate::ordering::in_order;
use crate::programs::{ProgramPlace, programs};
use crate::reaches::{Reach, reaches};
use crate::texts::TextRead;
use included_documents::Uris;
use ls_base::limits::MAX_UNITS;
use ls_base::{Items, Mem};
use std::alloc::Global;

/// What a document is to the others: whether it names itself, directly or not; whether another names it, and it isn't on such a
/// circle; whether it is such a part, reads, and has no program behind the most units, so that it can be included; and the number of
/// its program among the units of all documents, behind the most units the first number that is too many.
#[derive(Clone, Copy)]
pub struct TextPart {
    pub on_circle: bool,
    pub is_part: bool,
    pub is_usable: bool,
    pub program: usize,
}

/// What each document is to the others, and the places of those that can be included, each behind those that it names.
#[derive(Drop)]
pub struct TextParts {
    pub documents: Vec<TextPart>,
    pub order: Vec<usize>,
}

/// Whether any document names the one at a place.
fn is_named(rows: &[Items<bool>], place: usize) -> bool
    ensures { (all : Naming) → Rows rows.now all → place < length all → result ≡ list_any (λ ns. is_among ns place) all }
{
    for row in rows {
        if is_marked(row.as_slice(), place) {
            return true;
        }
    }
    false
}

/// Whether a document is a part of another.
fn is_part(rows: &[Items<bool>], place: usize, reach: Reach) -> bool
    ensures { (all : Naming) → Rows rows.now all → place < length all → IsReach all place reach → result ≡ is_part all place }
{
    if reach.on_circle {
        return false;
    }
    is_named(rows, place)
}

/// Whether a text can be included.
fn is_usable(is_part: bool, reads: bool, program: ProgramPlace) -> bool
    ensures { result ≡ (is_part && (reads && (not program.there || nat_lt program.number max_units))) }
{
    is_part && reads && (!program.there || program.number < MAX_UNITS)
}

/// What a document is to the others.
fn part_of(
    rows: &[Items<bool>],
    place: usize,
    reach: Reach,
    reads: bool,
    program: ProgramPlace,
) -> TextPart
    ensures { (ds : List Document) → place < length ds → Rows rows.now (naming ds) → reads ≡ is_some (document_at ds place).read → IsReach (naming ds) place reach →
        IsProgramPlace ds place program → IsTextPart ds place result }
{
    let is_part = is_part(rows, place, reach);
    let is_usable = is_usable(is_part, reads, program);
    TextPart {
        on_circle: reach.on_circle,
        is_part,
        is_usable,
        program: program.number,
    }
}

/// What each document is to the others.
fn documents(
    alloc: Global,
    rows: &[Items<bool>],
    reaches: &[Reach],
    texts: &[TextRead<'_>],
    programs: &[ProgramPlace],
) -> Mem<Vec<TextPart>>
    requires reaches { length reaches.now ≡ length texts.now }
    requires programs { length programs.now ≡ length texts.now }
    ensures size { IfOk result (λ parts. length parts.items ≡ length texts.now) }
    ensures each { (uris : List (List ℕ)) → let ds = documents_in uris texts.now in Rows rows.now (naming ds) → Each (IsReach (naming ds)) reaches.now → Each (IsProgramPlace ds) programs.now →
        IfOk result (λ parts. Each (IsTextPart ds) parts.items) }
{
    let mut parts = Vec::new(alloc);
    for place in 0..texts.len() {
        let reads = texts[place].reads;
        parts.push(part_of(rows, place, reaches[place], reads, programs[place]))?;
    }
    Ok(parts)
}

/// What texts are to one another that are the documents with these uris.
pub fn text_parts(alloc: Global, texts: &[TextRead<'_>], uris: &Uris) -> Mem<TextParts>
    requires { length texts.now ≡ length uris.now }
    ensures size { IfOk result (λ parts. length parts.documents.items ≡ length texts.now) }
    ensures documents { IfOk result (λ parts. Each (IsTextPart (documents_in uris.now texts.now)) parts.documents.items) }
    ensures order { IfOk result (λ parts. IsOrder (documents_in uris.now texts.now) parts.order.items) }
{
    let rows = naming(alloc, texts, uris)?;
    let reaches = reaches(alloc, rows.as_slice())?;
    let programs = programs(alloc, texts)?;
    let documents = documents(
        alloc,
        rows.as_slice(),
        reaches.as_slice(),
        texts,
        programs.as_slice(),
    )?;
    let order = in_order(alloc, documents.as_slice(), reaches.as_slice())?;
    Ok(TextParts { documents, order })
}
