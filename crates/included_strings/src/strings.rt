//! The strings of lists that include other texts (R7RS 4.1.7, 5.6.1).
ghost use Rattle.std.specs.Prelude.{◌≡◌};
ghost use Rattle.std.specs.List.{list_all};
ghost use Rattle.scheme_model.specs.Includes as model;
ghost use Rattle.datum_reader.specs.Views.{datum_of, data_of, leaf_of};
ghost use Rattle.datum_reader.specs.Looks.{symbol_now};
ghost use Rattle.included_strings.specs.Strings.{AreStrings, characters_in, is_string};

use datum_reader::Datum;
use datum_reader::datum::{Atom, Shape};
use datum_reader::heads::{behind_first, is_headed};

/// The characters of an atom that is a string.
fn quoted_in(leaf: &Atom) -> Option<&str>
    ensures { symbol_now result ≡ model.quoted_in (leaf_of leaf.now) }
{
    match leaf {
        Atom::Quoted(text) => Some(text.as_str()),
        Atom::Name { name: _, bars: _ } => None,
        Atom::Numeral(_) => None,
        Atom::Char(_) => None,
        Atom::Bool(_) => None,
    }
}

/// The characters of a string.
pub fn string_in(datum: &Datum) -> Option<&str>
    ensures { symbol_now result ≡ characters_in (datum_of datum.now) }
{
    match &datum.shape {
        Shape::Atom(leaf) => quoted_in(leaf),
        Shape::Implied(_) => None,
        Shape::List(_, _) => None,
        Shape::Vector(_) => None,
        Shape::Bytes(_) => None,
    }
}

/// Whether all data are strings.
fn are_strings(parts: &[Datum]) -> bool
    ensures { result ≡ list_all is_string (data_of parts.now) }
{
    for part in parts {
        if string_in(part).is_none() {
            return false;
        }
    }
    true
}

/// What a list with this head includes: one string or more, and nothing else.
fn included_by<'a>(word: &str, datum: &'a Datum) -> Option<&'a [Datum]>
    ensures { AreStrings result (model.included_by word.now (datum_of datum.now)) }
{
    if !is_headed(word, datum) {
        return None;
    }
    let strings = behind_first(datum);
    if strings.is_empty() {
        return None;
    }
    if !are_strings(strings) {
        return None;
    }
    Some(strings)
}

/// The strings of `(include "name" ...)`.
pub fn includes(datum: &Datum) -> Option<&[Datum]>
    ensures { AreStrings result (model.includes (datum_of datum.now)) }
{
    included_by("include", datum)
}

/// The strings of `(include-library-declarations "name" ...)`.
pub fn includes_declarations(datum: &Datum) -> Option<&[Datum]>
    ensures { AreStrings result (model.includes_declarations (datum_of datum.now)) }
{
    included_by("include-library-declarations", datum)
}
