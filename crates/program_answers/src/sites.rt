//! Identifiers where they stand in texts (R7RS 7.1.1), and the one at a place of a text.
ghost use Rattle.std.specs.Prelude.{◌≡◌, ◌==◌, [], List, if◌then◌else◌};
ghost use Rattle.scheme_model.specs.Diagnostics.{bytes_of};
ghost use Rattle.scheme_model.specs.Program.{UnitResult};
ghost use Rattle.program_answers.specs.Named.{names_in_heads, stands};
ghost use Rattle.read_documents.specs.Places.{ArePlaces, CanPlace, spans_of};
ghost use Rattle.read_documents.specs.Readings.{Read, span_seen};
ghost use Rattle.scheme_model.specs.Sites as sites;

use ls_base::Span;
use read_documents::heads::Head;
use read_documents::places::Places;
use scheme_model::Occ;

/// How an identifier stands at an offset: it begins there, or the offset is inside of it or at one of its ends.
#[derive(Clone, Copy)]
pub enum Standing {
    Begins,
    Touches,
}

/// The identifier that begins at an offset of a document, or else one that it is inside of or at the end of.
pub fn name_at(places: Places<'_>, document: usize, offset: u32) -> Option<Occ>
    requires { CanPlace places }
    ensures { (rs : List Read) (us : List UnitResult) → ArePlaces places.entry rs us → result ≡ sites.name_at (spans_of rs) us document offset }
{
    match first_name(places, document, offset, Standing::Begins) {
        Some(begun) => Some(begun),
        None => first_name(places, document, offset, Standing::Touches),
    }
}

/// The first identifier of a document that stands so at an offset.
#[tactic(auto, using(crate::proofs::SiteLaws::head_found, crate::proofs::SiteLaws::head_passed))]
fn first_name(places: Places<'_>, document: usize, offset: u32, standing: Standing) -> Option<Occ>
    requires { CanPlace places }
    ensures { (rs : List Read) (us : List UnitResult) → ArePlaces places.entry rs us →
        result ≡ sites.first_where (λ o. stands standing offset (bytes_of (spans_of rs) us o).span) (names_in_heads document places.entry.heads.now) }
{
    for head in places.heads {
        if let Some(occ) = first_in(places, head, document, offset, standing) {
            return Some(occ);
        }
    }
    None
}

/// The first identifier of a unit that stands so at an offset, where the unit is of the document.
fn first_in(
    places: Places<'_>,
    head: &Head,
    document: usize,
    offset: u32,
    standing: Standing,
) -> Option<Occ>
    requires { CanPlace places }
    ensures { (rs : List Read) (us : List UnitResult) → ArePlaces places.entry rs us →
        result ≡ sites.first_where (λ o. stands standing offset (bytes_of (spans_of rs) us o).span) (if head.now.document == document then head.now.names.items else []) }
{
    if head.document == document {
        first_among(places, head.names.as_slice(), offset, standing)
    } else {
        None
    }
}

/// The first of some occurrences that stands so at an offset.
fn first_among(places: Places<'_>, names: &[Occ], offset: u32, standing: Standing) -> Option<Occ>
    requires { CanPlace places }
    ensures { (rs : List Read) (us : List UnitResult) → ArePlaces places.entry rs us →
        result ≡ sites.first_where (λ o. stands standing offset (bytes_of (spans_of rs) us o).span) names.now }
{
    for name in names {
        if stands(places.at(*name).span, offset, standing) {
            return Some(*name);
        }
    }
    None
}

/// Whether bytes stand so at an offset.
fn stands(span: Span, offset: u32, standing: Standing) -> bool
    ensures { result ≡ stands standing offset (span_seen span) }
{
    match standing {
        Standing::Begins => span.start == offset,
        Standing::Touches => span.start <= offset && offset <= span.end,
    }
}
