//! Where occurrences and forms stand.
ghost use Rattle.std.specs.Prelude.{◌≡◌, ◌<◌, List, length, map, nat_lt, None, Some, if◌then◌else◌};
ghost use Rattle.scheme_model.specs.Diagnostics.{bytes_of, document_of, or_start, span_at};
ghost use Rattle.scheme_model.specs.Program.{UnitResult, result_at};
ghost use Rattle.read_documents.specs.Readings.{Read, span_seen};
ghost use Rattle.read_documents.specs.Places.{ArePlaces, bytes_at, spans_of, start_of, number_at, unit_at, form_or_start, CanPlace};

use crate::documents::Document;
use crate::findings::At;
use crate::heads::Head;
use ls_base::{Place, Span};
use scheme_model::Occ;

/// An Error of a unit, with its place.
#[derive(Drop)]
pub struct PlacedError {
    pub place: Place,
    pub code: u32,
}

/// The documents and the units, by which an occurrence has bytes.
#[derive(Clone, Copy)]
pub struct Places<'a> {
    pub documents: &'a [Document],
    pub heads: &'a [Head],
}

impl Places<'_> {
    /// The bytes of an occurrence.
    pub fn at(&self, occ: Occ) -> At
        requires { CanPlace self.now }
        ensures inside { 0 < length self.now.documents.now → result.document < length self.now.documents.now }
        ensures exact { (rs : List Read) (us : List UnitResult) → ArePlaces self.now rs us → bytes_at result ≡ bytes_of (spans_of rs) us occ }
    {
        let Some(head) = self.heads.get(occ.unit as usize) else {
            return nowhere();
        };
        let first = first_of(head.firsts.as_slice(), occ.form);
        let unit = unit_at(head.homes.as_slice(), occ.form, occ.unit);
        let document = self.document_of(unit);
        let spans = self.documents[document].spans.as_slice();
        At {
            document,
            span: span_at(spans, first as usize + occ.token as usize),
        }
    }

    /// The document of a unit.
    pub fn document_of(&self, unit: u32) -> usize
        ensures inside { CanPlace self.now → 0 < length self.now.documents.now → result < length self.now.documents.now }
        ensures exact { (rs : List Read) (us : List UnitResult) → ArePlaces self.now rs us → result ≡ document_of us unit }
    {
        match self.heads.get(unit as usize) {
            Some(head) => head.document,
            None => 0,
        }
    }

    /// The bytes of a unit's first token.
    pub fn start(&self, unit: u32) -> At
        ensures unit { CanPlace self.now → unit < length self.now.heads.now → result.document < length self.now.documents.now }
        ensures inside { CanPlace self.now → 0 < length self.now.documents.now → result.document < length self.now.documents.now }
        ensures exact { (rs : List Read) (us : List UnitResult) → ArePlaces self.now rs us → bytes_at result ≡ start_of (spans_of rs) (result_at us unit) }
    {
        match self.heads.get(unit as usize) {
            Some(head) => At::new(head.document, head.span),
            None => nowhere(),
        }
    }

    /// The bytes of an occurrence, or where there is none those of a form's first token.
    pub fn at_or_form(&self, occ: Option<Occ>, unit: u32, form: u32) -> At
        requires { CanPlace self.now }
        ensures inside { 0 < length self.now.documents.now → result.document < length self.now.documents.now }
        ensures exact { (rs : List Read) (us : List UnitResult) → ArePlaces self.now rs us → bytes_at result ≡ bytes_of (spans_of rs) us (or_start unit form occ) }
    {
        match occ {
            Some(occ) => self.at(occ),
            None => self.at(Occ {
                unit,
                form,
                token: 0,
            }),
        }
    }

    /// The bytes of a form's first token, or of the unit's where it has no such form.
    pub fn form_start(&self, unit: u32, form: u32) -> At
        requires { CanPlace self.now }
        ensures inside { 0 < length self.now.documents.now → result.document < length self.now.documents.now }
        ensures exact { (rs : List Read) (us : List UnitResult) → ArePlaces self.now rs us → bytes_at result ≡ form_or_start (spans_of rs) us (result_at us unit) unit form }
    {
        let Some(head) = self.heads.get(unit as usize) else {
            return nowhere();
        };
        if (form as usize) < head.firsts.len() {
            self.at_or_form(None, unit, form)
        } else {
            self.start(unit)
        }
    }
}

/// The number of a form's first token, and 0 where there is no such form.
fn first_of(firsts: &[u32], form: u32) -> u32
    ensures { result ≡ number_at firsts.now form }
{
    match firsts.get(form as usize) {
        Some(first) => *first,
        None => 0,
    }
}

/// The unit at a form's place, and this one where there is none.
fn unit_at(units: &[u32], form: u32, unit: u32) -> u32
    ensures { result ≡ unit_at units.now form unit }
{
    match units.get(form as usize) {
        Some(home) => *home,
        None => unit,
    }
}

/// The bytes of the token with a number, none where there is no such token.
fn span_at(spans: &[Span], n: usize) -> Span
    ensures { span_seen result ≡ span_at (map span_seen spans.now) n }
{
    match spans.get(n) {
        Some(span) => *span,
        None => Span { start: 0, end: 0 },
    }
}

/// The start of the first document.
fn nowhere() -> At
    ensures { result ≡ record { document = 0; span = record { start = 0; end = 0 } } }
{
    At::new(0, Span { start: 0, end: 0 })
}
