//! Lists by what stands first in them, and the first tokens of data.
ghost use Rattle.std.specs.Prelude.{◌≡◌, Option};
ghost use Rattle.std.specs.Option.{is_some};
ghost use Rattle.scheme_model.specs.Data.{Datum as ModelDatum, Place, list, row};
ghost use Rattle.scheme_model.specs.Program.{behind_first, second_or};
ghost use Rattle.scheme_model.specs.Declarations.{is_headed, is_proper, list_parts, proper_parts};
ghost use Rattle.datum_reader.specs.Views.{datum_of, data_of};
ghost use Rattle.datum_reader.specs.Looks.{end_with, is_list};
ghost use Rattle.datum_reader.specs.FirstTokens.{first_token, opening, list_token};

use crate::datum::{Datum, Shape};
use crate::look::{Look, Row, look_at, row_of, symbol_in};
use ls_base::Span;

/// So many bytes at the beginning of a span.
fn opening(width: u32, span: Span) -> Span
    ensures { result ≡ opening width span }
{
    Span {
        start: span.start,
        end: span.start.saturating_add(width).min(span.end),
    }
}

/// The bytes of the first token of a datum.
pub fn first_token(datum: &Datum) -> Span
    ensures { result ≡ first_token (datum_of datum.now) }
{
    match &datum.shape {
        Shape::Atom(_) => datum.span,
        Shape::Implied(_) => datum.span,
        Shape::List(parts, _) => list_token(parts.as_slice(), datum.span),
        Shape::Vector(_) => opening(2, datum.span),
        Shape::Bytes(_) => opening(4, datum.span),
    }
}

/// The bytes of the first token of a list: of a parenthesis, or of the mark of an abbreviation.
fn list_token(parts: &[Datum], span: Span) -> Span
    ensures { (end : Option ModelDatum) → result ≡ list_token span (row (data_of parts.now) (end_with end)) }
{
    match row_of(parts) {
        Row::Empty => opening(1, span),
        Row::Parts(first, _) => match look_at(first) {
            Look::Implied(_) => first.span,
            Look::Name(_) => opening(1, span),
            Look::Numeral(_) => opening(1, span),
            Look::List(_, _) => opening(1, span),
            Look::Other => opening(1, span),
        },
    }
}

/// Whether a datum is a list.
pub fn is_list(datum: &Datum) -> bool
    ensures { result ≡ is_list (datum_of datum.now) }
{
    match look_at(datum) {
        Look::List(_, _) => true,
        Look::Name(_) => false,
        Look::Implied(_) => false,
        Look::Numeral(_) => false,
        Look::Other => false,
    }
}

/// Whether a datum is a list that isn't dotted.
pub fn is_proper(datum: &Datum) -> bool
    ensures { result ≡ is_proper (datum_of datum.now) }
{
    match look_at(datum) {
        Look::List(_, dotted) => !dotted,
        Look::Name(_) => false,
        Look::Implied(_) => false,
        Look::Numeral(_) => false,
        Look::Other => false,
    }
}

/// Whether a datum is a list headed by a word.
pub fn is_headed(word: &str, datum: &Datum) -> bool
    ensures { result ≡ is_headed word.now (datum_of datum.now) }
{
    match look_at(datum) {
        Look::List(parts, _) => is_headed_by(word, parts),
        Look::Name(_) => false,
        Look::Implied(_) => false,
        Look::Numeral(_) => false,
        Look::Other => false,
    }
}

/// Whether a word stands first.
fn is_headed_by(word: &str, parts: &[Datum]) -> bool
    ensures { (end : Option ModelDatum) (p : Place) → result ≡ is_headed word.now (list p (row (data_of parts.now) (end_with end))) }
{
    match row_of(parts) {
        Row::Empty => false,
        Row::Parts(first, _) => match symbol_in(first) {
            None => false,
            Some(symbol) => word == symbol,
        },
    }
}

/// What stands behind the first part of a list that isn't dotted.
pub fn behind_first(datum: &Datum) -> &[Datum]
    ensures { data_of result.now ≡ behind_first (list_parts (datum_of datum.now)) }
{
    match look_at(datum) {
        Look::List(parts, dotted) => behind_in(parts, dotted),
        Look::Name(_) => &[],
        Look::Implied(_) => &[],
        Look::Numeral(_) => &[],
        Look::Other => &[],
    }
}

/// What stands behind the first of these parts.
fn behind_in(parts: &[Datum], dotted: bool) -> &[Datum]
    ensures { (end : Option ModelDatum) → is_some end ≡ dotted →
        data_of result.now ≡ behind_first (proper_parts (row (data_of parts.now) (end_with end))) }
{
    if dotted {
        return &[];
    }
    match row_of(parts) {
        Row::Empty => &[],
        Row::Parts(_, rest) => rest,
    }
}

/// The second part of a list that isn't dotted, or the datum itself.
pub fn second_or_itself(datum: &Datum) -> &Datum
    ensures { datum_of result.now ≡ second_or (datum_of datum.now) (list_parts (datum_of datum.now)) }
{
    match look_at(datum) {
        Look::List(parts, dotted) => second_of(datum, parts, dotted),
        Look::Name(_) => datum,
        Look::Implied(_) => datum,
        Look::Numeral(_) => datum,
        Look::Other => datum,
    }
}

/// The second of these parts, or the datum itself.
fn second_of<'a>(datum: &'a Datum, parts: &'a [Datum], dotted: bool) -> &'a Datum
    ensures { (end : Option ModelDatum) → is_some end ≡ dotted →
        datum_of result.now ≡ second_or (datum_of datum.now) (proper_parts (row (data_of parts.now) (end_with end))) }
{
    if dotted {
        return datum;
    }
    match row_of(parts) {
        Row::Empty => datum,
        Row::Parts(_, behind) => match row_of(behind) {
            Row::Empty => datum,
            Row::Parts(second, _) => second,
        },
    }
}
