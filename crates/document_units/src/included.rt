//! The texts of documents as units see them that include them (R7RS 4.1.7, 5.6.1).
ghost use Rattle.std.specs.Prelude.{◌≡◌, not, ℕ, true, Some, length, map, slice_get, IfOk};
ghost use Rattle.std.specs.Option.{is_some};
ghost use Rattle.scheme_model.specs.Included.{Sources};
ghost use Rattle.scheme_model.specs.Includes.{naming, usable, is_among};
ghost use Rattle.scheme_model.specs.IncludedUnits.{max_tokens};
ghost use Rattle.datum_reader.specs.Views.{data_of};
ghost use Rattle.known_libraries.specs.PartsRead.{Knows};
ghost use Rattle.included_forms.specs.Built.{IsText};
ghost use Rattle.included_forms.specs.Tables.{Mean};
ghost use Rattle.included_forms.specs.declared.tables.Text.{Text as ModelText};
ghost use Rattle.text_parts.specs.declared.parts.TextPart.{TextPart as ModelPart};
ghost use Rattle.read_documents.specs.DataRead.{DocumentsRead, items_in};
ghost use Rattle.document_units.specs.Listing.{IsReader};

use datum_reader::Datum;
use included_documents::Uris;
use included_forms::{Documents, Table, Text};
use known_libraries::KnownLibraries;
use ls_base::{Mem, Memory};
use read_documents::documents::Document;
use std::alloc::Global;
use text_parts::{TextPart, TextParts, TextRead};

/// The most tokens that the forms of a unit have.
const MAX_TOKENS: u32 = 1_048_576;

/// What units are read by: the documents, and the texts among them that can be included.
#[derive(Drop)]
pub struct Reader<'a> {
    pub documents: Documents<'a>,
    pub table: Table<'a>,
}

/// The uris of documents, each read once.
pub fn uris_of(alloc: Global, documents: &[Document]) -> Mem<Uris>
    ensures { IfOk result (λ uris. uris ≡ map (λ c. c.uri) documents.now) }
{
    let mut uris = Vec::new(alloc);
    for document in documents {
        uris.push(document.uri.as_str())?;
    }
    Uris::of(alloc, uris.as_slice())
}

/// The data of a document, none where it doesn't read.
pub fn items_in(document: &Document) -> &[Datum]
    ensures { result.now ≡ items_in document.now }
{
    if document.fault.is_some() {
        return &[];
    }
    document.items.as_slice()
}

/// Documents as they are seen where it is asked what they name.
pub fn views_of<'a>(alloc: Global, documents: &'a [Document]) -> Mem<Vec<TextRead<'a>>>
    ensures data { IfOk result (λ views. map (λ v. data_of v.«data».now) views.items ≡ map (λ c. data_of (items_in c)) documents.now) }
    ensures reads { IfOk result (λ views. map (λ v. v.reads) views.items ≡ map (λ c. not (is_some c.fault)) documents.now) }
{
    let mut views = Vec::new(alloc);
    for document in documents {
        views.push(TextRead {
            data: items_in(document),
            reads: !document.fault.is_some(),
        })?;
    }
    Ok(views)
}

/// A place among units or documents. Memory for more than 2^32 isn't there.
pub fn place_of(place: usize) -> Mem<u32>
    ensures { IfOk result (λ n. n ≡ place) }
{
    match u32::try_from(place) {
        Ok(place) => Ok(place),
        Err(_) => Err(Memory),
    }
}

/// Documents as they are included, each with the number of its program.
pub fn texts_of<'a>(
    alloc: Global,
    documents: &'a [Document],
    parts: &[TextPart],
) -> Mem<Vec<Text<'a>>>
    requires { length parts.now ≡ length documents.now }
    ensures data { IfOk result (λ texts. map (λ t. data_of t.«data».now) texts.items ≡ map (λ c. data_of (items_in c)) documents.now) }
    ensures units { IfOk result (λ texts. map (λ t. t.unit) texts.items ≡ map (λ p. p.program) parts.now) }
{
    let mut texts = Vec::new(alloc);
    for (place, document) in documents.iter().enumerate() {
        let unit = place_of(parts[place].program)?;
        texts.push(Text {
            data: items_in(document),
            unit,
        })?;
    }
    Ok(texts)
}

/// Which documents can be included.
fn usable_of(alloc: Global, parts: &[TextPart]) -> Mem<Vec<bool>>
    ensures { IfOk result (λ usable. usable.items ≡ map (λ p. p.is_usable) parts.now) }
{
    let mut usable = Vec::new(alloc);
    for part in parts {
        usable.push(part.is_usable)?;
    }
    Ok(usable)
}

/// The order of the texts that can be included.
fn order_of(alloc: Global, order: &[usize]) -> Mem<Vec<u32>>
    ensures { IfOk result (λ places. places.items ≡ order.now) }
{
    let mut places = Vec::new(alloc);
    for place in order {
        places.push(place_of(*place)?)?;
    }
    Ok(places)
}

/// What units are read by.
pub fn reader_of<'a>(
    alloc: Global,
    known: &'a KnownLibraries,
    uris: &'a Uris,
    texts: &'a [Text<'a>],
    parts: &TextParts,
) -> Mem<Reader<'a>>
    requires { length texts.now ≡ length uris.now }
    ensures reader { (o : Sources) → o.limit ≡ max_tokens → o.usable ≡ usable (naming o.documents) o.documents → Knows known.now.names o.known → Mean o uris.now → DocumentsRead o.documents →
        ((n : ℕ) (x : ModelText) → slice_get texts.now n ≡ Some x → is_among o.usable n ≡ true → IsText o n x) →
        length parts.now.documents.items ≡ length o.documents → ((n : ℕ) (p : ModelPart) → slice_get parts.now.documents.items n ≡ Some p → p.is_usable ≡ is_among o.usable n) →
        IfOk result (IsReader o) }
    ensures uris { IfOk result (λ reader. reader.documents.uris.now ≡ uris.now) }
{
    let documents = Documents {
        limit: MAX_TOKENS,
        known,
        uris,
        texts,
    };
    let usable = usable_of(alloc, parts.documents.as_slice())?;
    let order = order_of(alloc, parts.order.as_slice())?;
    let table = Table::of(alloc, &documents, usable.as_slice(), order.as_slice())?;
    Ok(Reader { documents, table })
}
