//! Data by what declarations see of them (R7RS 7.1.2): identifiers, numerals and lists.
ghost use Rattle.std.specs.Prelude.{◌≡◌};
ghost use Rattle.scheme_model.specs.Data.{Place, atom, spelled};
ghost use Rattle.scheme_model.specs.DataTrees.{mark_symbol};
ghost use Rattle.datum_reader.specs.Views.{datum_of, leaf_of, mark_of};
ghost use Rattle.datum_reader.specs.Looks.{IsLook, IsRow, IsWord, symbol_now};
ghost use Rattle.scheme_model.specs.Declarations.{symbol_in};

use crate::datum::{Atom, Datum, Mark, Shape};

/// What a datum is: an identifier that was read from a token, the identifier that a mark implies, a numeral as it is written, a
/// list with its parts, of which is told whether it is dotted, or something else.
#[derive(Clone, Copy)]
pub enum Look<'a> {
    Name(&'a str),
    Implied(&'static str),
    Numeral(&'a str),
    List(&'a [Datum], bool),
    Other,
}

/// What a datum is. It takes no memory.
pub fn look_at(datum: &Datum) -> Look<'_>
    ensures { IsLook result (datum_of datum.now) }
{
    match &datum.shape {
        Shape::Atom(atom) => look_at_atom(atom),
        Shape::Implied(mark) => Look::Implied(implied_name(*mark)),
        Shape::List(parts, end) => Look::List(parts.as_slice(), end.is_some()),
        Shape::Vector(_) => Look::Other,
        Shape::Bytes(_) => Look::Other,
    }
}

/// What an atom is.
fn look_at_atom(leaf: &Atom) -> Look<'_>
    ensures { (p : Place) → IsLook result (atom p (spelled (leaf_of leaf.now))) }
{
    match leaf {
        Atom::Name { name, bars: _ } => Look::Name(name.as_str()),
        Atom::Numeral(text) => Look::Numeral(text.as_str()),
        Atom::Quoted(_) => Look::Other,
        Atom::Char(_) => Look::Other,
        Atom::Bool(_) => Look::Other,
    }
}

/// The identifier that a mark implies.
pub fn implied_name(mark: Mark) -> &'static str
    ensures { result.now ≡ mark_symbol (mark_of mark) }
{
    match mark {
        Mark::Quote => "quote",
        Mark::Quasi => "quasiquote",
        Mark::Unquote => "unquote",
        Mark::Splice => "unquote-splicing",
    }
}

/// The symbol of an identifier, also of one that a mark implies.
pub fn symbol_in(datum: &Datum) -> Option<&str>
    ensures symbol { symbol_now result ≡ symbol_in (datum_of datum.now) }
    ensures word { IsWord result (datum_of datum.now) }
{
    match look_at(datum) {
        Look::Name(symbol) => Some(symbol),
        Look::Implied(symbol) => Some(symbol),
        Look::Numeral(_) => None,
        Look::List(_, _) => None,
        Look::Other => None,
    }
}

/// Data in a row: none, or a first and those behind it.
#[derive(Clone, Copy)]
pub enum Row<'a> {
    Empty,
    Parts(&'a Datum, &'a [Datum]),
}

/// A row by its first.
pub fn row_of(parts: &[Datum]) -> Row<'_>
    ensures { IsRow result parts.now }
{
    match parts.split_first() {
        None => Row::Empty,
        Some((first, rest)) => Row::Parts(first, rest),
    }
}
