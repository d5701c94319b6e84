//! The open documents, with what they are read as and where their units stand.
ghost use Rattle.std.specs.Prelude.{◌≡◌, ◌<◌, ◌==◌, ℕ, List, length, slice_get, IfOk, IfSome};
ghost use Rattle.std.specs.List.{slice_range};
ghost use Rattle.std.specs.Option.{option_map};
ghost use Rattle.std.specs.FinMap.{empty, entries};
ghost use Rattle.document_store.specs.Texts.{Document as Entry, text_at};
ghost use Rattle.scheme_model.specs.Diagnostics.{bytes_of};
ghost use Rattle.scheme_model.specs.declared.Occ as occ;
ghost use Rattle.ls_base.specs.Positions.{offset_of};
ghost use Rattle.read_documents.specs.Belongs.{AreErrorsIn, Belongs, error_in};
ghost use Rattle.read_documents.specs.Listed.{range_of};
ghost use Rattle.program_answers.specs.Named.{CanCut};
ghost use Rattle.read_documents.specs.Readings.{Read, AreReadAs, AreDocuments, IsDocument, first_unread, program_in, span_seen};
ghost use Rattle.program_answers.specs.Placed.{IsErrorAt, IsIn, IsPlace, form_bytes};
ghost use Rattle.read_documents.specs.Places.{ArePlaces, CanPlace, bytes_at, spans_of};
ghost use Rattle.scheme_model.specs.Sites as sites;
ghost use Rattle.program_answers.specs.ToldAnswers as told;
ghost use Rattle.read_documents.specs.UnitFindings.{first_error_at};

use crate::lists::{range, text_in};
use crate::sites::name_at;
use document_store::Store;
use ls_base::{Encoding, Mem, Place, Pos, Range, Span, Text};
use read_documents::documents::{Document, first_unread};
use read_documents::findings::At;
use read_documents::heads::Head;
use read_documents::places::{PlacedError, Places};
use scheme_model::Occ;
use std::alloc::Global;
use std::marker::Model;

/// The open documents: their texts, what they are read as, where their units stand, and the first Error of each unit. Contracts see
/// the texts, which the rest belongs to.
#[derive(Drop)]
pub struct Open {
    store: Store,
    documents: Vec<Document>,
    heads: Vec<Head>,
    errors: Vec<Option<(At, u32)>>,
}

impl Model for Open {
    ghost use Rattle.document_store.specs.Texts.{Texts};
    ghost use Rattle.document_store.specs.Docs.{coded_texts};
    ghost use Rattle.read_documents.specs.Belongs.{Belongs};

    ghost Value = { Texts };

    ghost coded = { coded_texts };

    ghost view = { λ o. o.store };

    ghost invariant = { λ o. Belongs o.store o.documents.items o.heads.items o.errors.items };
}

impl Open {
    /// No documents.
    pub fn new(alloc: Global) -> Open
        ensures { result ≡ empty }
    {
        Open {
            store: Store::new(alloc),
            documents: Vec::new(alloc),
            heads: Vec::new(alloc),
            errors: Vec::new(alloc),
        }
    }

    /// Documents with what belongs to them.
    pub fn of(
        store: Store,
        documents: Vec<Document>,
        heads: Vec<Head>,
        errors: Vec<Option<(At, u32)>>,
    ) -> Open
        requires { Belongs store documents.items heads.items errors.items }
        ensures { result ≡ store }
    {
        Open {
            store,
            documents,
            heads,
            errors,
        }
    }

    /// The texts.
    pub fn store(&self) -> &Store
        ensures { result.now ≡ self.now }
    {
        &self.store
    }

    /// Whether no document is open.
    pub fn is_empty(&self) -> bool
        ensures { result ≡ (length (entries self.now) == 0) }
    {
        self.documents().is_empty()
    }

    /// The documents as they are read.
    pub fn documents(&self) -> &[Document]
        ensures { AreDocuments (entries self.now) result.now }
    {
        self.documents.as_slice()
    }

    /// The first document whose text doesn't read. `None` where all do.
    pub fn unreadable(&self) -> Option<&str>
        ensures { (rs : List Read) → AreReadAs (entries self.now) rs → option_map (λ uri. uri.now) result ≡ first_unread (entries self.now) rs }
    {
        first_unread(self.documents.as_slice())
    }

    /// The documents and units, by which an occurrence has a place.
    pub fn places(&self) -> Places<'_>
        ensures documents { length result.documents.now ≡ length (entries self.now) }
        ensures places { CanPlace result }
        ensures exact { (rs : List Read) → AreReadAs (entries self.now) rs → ArePlaces result rs (program_in rs).units }
    {
        Places {
            documents: self.documents.as_slice(),
            heads: self.heads.as_slice(),
        }
    }

    /// The place of a token.
    pub fn place_of(&self, occ: Occ, encoding: Encoding) -> Mem<Place>
        requires { 0 < length (entries self.now) }
        ensures inside { IfOk result (IsIn encoding (entries self.now)) }
        ensures exact { (rs : List Read) → AreReadAs (entries self.now) rs → IfOk result (IsPlace encoding (entries self.now) (bytes_of (spans_of rs) (program_in rs).units occ)) }
    {
        let place = self.place(self.places().at(occ), encoding)?;
        Ok(place)
    }

    /// The place of a form's first token; that of the unit where it has no such form; that of the last unit where there is no such
    /// unit.
    pub fn form_place(&self, unit: u32, form: u32, encoding: Encoding) -> Mem<Place>
        requires { 0 < length (entries self.now) }
        ensures inside { IfOk result (IsIn encoding (entries self.now)) }
        ensures exact { (rs : List Read) → AreReadAs (entries self.now) rs → IfOk result (IsPlace encoding (entries self.now) (form_bytes (spans_of rs) (program_in rs).units unit form)) }
    {
        let last = self.heads.len().saturating_sub(1);
        let unit = last.min(unit as usize) as u32;
        let place = self.place(self.places().form_start(unit, form), encoding)?;
        Ok(place)
    }

    /// The place of the first Error of a unit, with its code. `None` exactly where it has none.
    pub fn first_error(&self, unit: u32, encoding: Encoding) -> Mem<Option<PlacedError>>
        ensures inside { IfOk result (λ e. IfSome e (λ p. IsIn encoding (entries self.now) p.place)) }
        ensures exact { (rs : List Read) → AreReadAs (entries self.now) rs → IfOk result (IsErrorAt encoding (entries self.now) (first_error_at rs (program_in rs) (slice_get (program_in rs).units unit))) }
    {
        let Some((at, code)) = error_at(self.errors.as_slice(), unit) else {
            return Ok(None);
        };
        let place = self.place(at, encoding)?;
        Ok(Some(PlacedError { place, code }))
    }

    /// Bytes of a document as a place.
    pub fn place(&self, at: At, encoding: Encoding) -> Mem<Place>
        requires { at.document < length (entries self.now) }
        ensures place { IfOk result (IsPlace encoding (entries self.now) (bytes_at at)) }
        ensures told { IfOk result (λ p. p ≡ told.place_told encoding (entries self.now) (bytes_at at)) }
    {
        let range = self.range(at, encoding);
        let uri = self.document(at.document).uri.clone()?;
        Ok(Place { uri, range })
    }

    /// Bytes of a document as a range.
    pub fn range(&self, at: At, encoding: Encoding) -> Range
        requires { at.document < length (entries self.now) }
        ensures { result ≡ range_of encoding (told.text_of (entries self.now) at.document) at.span.start at.span.end }
    {
        let lines = &self.document(at.document).lines;
        range(lines, self.text(at.document), at.span, encoding)
    }

    /// A document by its place.
    pub fn document(&self, number: usize) -> &Document
        requires { number < length (entries self.now) }
        ensures { IsDocument (told.document_at (entries self.now) number) result.now }
    {
        &self.documents[number]
    }

    /// The text of a document.
    pub fn text(&self, number: usize) -> &str
        requires { number < length (entries self.now) }
        ensures { result.now ≡ told.text_of (entries self.now) number }
    {
        text_in(&self.store, self.document(number))
    }

    /// The place of a document among the open ones. `None` exactly where it isn't open.
    pub fn number_of(&self, uri: &str) -> Option<usize>
        ensures exact { result ≡ told.number_of (entries self.now) uri.now }
        ensures inside { IfSome result (λ n. n < length (entries self.now)) }
    {
        number_of(self.documents(), uri)
    }

    /// The offset of a position of a document.
    pub fn offset(&self, document: usize, position: Pos, encoding: Encoding) -> u32
        requires { document < length (entries self.now) }
        ensures { result ≡ offset_of encoding (told.text_of (entries self.now) document) position }
    {
        let lines = &self.document(document).lines;
        lines.offset(self.text(document), position, encoding)
    }

    /// The identifier that begins at an offset of a document, or else one that it is inside of or at the end of.
    pub fn name_at(&self, document: usize, offset: u32) -> Option<Occ>
        ensures { (rs : List Read) → AreReadAs (entries self.now) rs → result ≡ sites.name_at (spans_of rs) (program_in rs).units document offset }
    {
        name_at(self.places(), document, offset)
    }

    /// The bytes of an occurrence.
    pub fn bytes_of(&self, occ: Occ) -> At
        ensures inside { 0 < length (entries self.now) → result.document < length (entries self.now) }
        ensures exact { (rs : List Read) → AreReadAs (entries self.now) rs → bytes_at result ≡ bytes_of (spans_of rs) (program_in rs).units occ }
    {
        self.places().at(occ)
    }

    /// The token of an occurrence as it is written, whose bytes these are.
    pub fn written_at(&self, alloc: Global, at: At) -> Mem<Text>
        requires { at.document < length (entries self.now) }
        ensures { (rs : List Read) (o : occ.Occ) → AreReadAs (entries self.now) rs → bytes_at at ≡ bytes_of (spans_of rs) (program_in rs).units o →
            IfOk result (λ text. text ≡ told.written_at (entries self.now) (bytes_at at)) }
    {
        let written = cut(self.text(at.document), at.span);
        Ok(Text::of(alloc, written)?)
    }

    /// Whether what begins at these bytes stands between bars (R7RS 7.1.1).
    pub fn has_bars(&self, at: At) -> bool
        requires { at.document < length (entries self.now) }
        ensures { result ≡ told.has_bars (entries self.now) (bytes_at at) }
    {
        let text = self.text(at.document).as_bytes();
        text.get(at.span.start as usize) == Some(&b'|')
    }
}

/// The place of a document among others.
fn number_of(documents: &[Document], uri: &str) -> Option<usize>
    ensures exact { (ds : List (List ℕ × Entry)) → AreDocuments ds documents.now → result ≡ told.number_of ds uri.now }
    ensures inside { IfSome result (λ n. n < length documents.now) }
{
    for (number, document) in documents.iter().enumerate() {
        if document.uri.as_str() == uri {
            return Some(number);
        }
    }
    None
}

/// A part of a text that begins and ends between characters.
fn cut(text: &str, span: Span) -> &str
    ensures { CanCut text.now (span_seen span) → result.now ≡ slice_range text.now span.start span.end }
{
    match text.get(span.start as usize..span.end as usize) {
        Some(part) => part,
        None => "",
    }
}

/// The first Error of the unit at a place, where there is one.
fn error_at(errors: &[Option<(At, u32)>], unit: u32) -> Option<(At, u32)>
    ensures inside { (count : ℕ) → AreErrorsIn count errors.now → IfSome result (λ e. e.0.document < count) }
    ensures exact { result ≡ error_in (slice_get errors.now unit) }
{
    match errors.get(unit as usize) {
        Some(error) => *error,
        None => None,
    }
}
