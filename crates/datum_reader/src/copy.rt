//! Copies of data. A copy shares the parts of a list or a vector, so it takes time for a tail, an atom or a bytevector alone.
ghost use Rattle.std.specs.Prelude.{◌≡◌, IfOk};
ghost use Rattle.datum_reader.specs.Views.{data_of, datum_of, shape_of, end_data};
ghost use Rattle.scheme_model.specs.Data.{Place};

use crate::datum::{Atom, Datum, Shape};
use ls_base::{Mem, Text};
use std::alloc::Global;

impl Datum {
    /// A copy, which stands for the same datum.
    pub fn copy(&self, alloc: Global) -> Mem<Datum>
        ensures { IfOk result (λ copy. datum_of copy ≡ datum_of self.now) }
    {
        Ok(copy_datum(alloc, self)?)
    }
}

#[cycle(copies)]
fn copy_datum(alloc: Global, datum: &Datum) -> Mem<Datum>
    ensures { IfOk result (λ copy. datum_of copy ≡ datum_of datum.now) }
{
    let shape = copy_shape(alloc, &datum.shape)?;
    Ok(Datum {
        shape,
        first: datum.first,
        last: datum.last,
        span: datum.span,
    })
}

#[cycle(copies)]
fn copy_shape(alloc: Global, shape: &Shape) -> Mem<Shape>
    ensures { IfOk result (λ copy. (p : Place) → shape_of copy p ≡ shape_of shape.now p) }
{
    match shape {
        Shape::Atom(atom) => Ok(Shape::Atom(copy_atom(atom)?)),
        Shape::Implied(mark) => Ok(Shape::Implied(*mark)),
        Shape::Bytes(numerals) => Ok(Shape::Bytes(copy_texts(alloc, numerals)?)),
        Shape::Vector(parts) => Ok(Shape::Vector(parts.clone()?)),
        Shape::List(parts, end) => {
            let end = copy_end(alloc, end)?;
            Ok(Shape::List(parts.clone()?, end))
        }
    }
}

/// A copy of a list's tail, where it has one.
#[cycle(copies)]
fn copy_end(alloc: Global, end: &Option<Box<Datum>>) -> Mem<Option<Box<Datum>>>
    ensures { IfOk result (λ copy. end_data copy ≡ end_data end.now) }
{
    match end {
        None => Ok(None),
        Some(datum) => {
            let copy = copy_datum(alloc, datum)?;
            Ok(Some(Box::new(alloc, copy)?))
        }
    }
}

/// Copies of some data.
pub(crate) fn copy_all(alloc: Global, parts: &[Datum]) -> Mem<Vec<Datum>>
    ensures { IfOk result (λ copies. data_of copies.items ≡ data_of parts.now) }
{
    let mut copies = Vec::with_capacity(alloc, parts.len())?;
    for part in parts {
        let copy = copy_datum(alloc, part)?;
        copies.push(copy)?;
    }
    Ok(copies)
}

fn copy_texts(alloc: Global, texts: &[Text]) -> Mem<Vec<Text>>
    ensures { IfOk result (λ copies. copies.items ≡ texts.now) }
{
    let mut copies = Vec::with_capacity(alloc, texts.len())?;
    for text in texts {
        copies.push(text.clone()?)?;
    }
    Ok(copies)
}

fn copy_atom(atom: &Atom) -> Mem<Atom>
    ensures { IfOk result (λ copy. copy ≡ atom.now) }
{
    match atom {
        Atom::Name { name, bars } => Ok(Atom::Name {
            name: name.clone()?,
            bars: *bars,
        }),
        Atom::Numeral(text) => Ok(Atom::Numeral(text.clone()?)),
        Atom::Quoted(text) => Ok(Atom::Quoted(text.clone()?)),
        Atom::Char(c) => Ok(Atom::Char(*c)),
        Atom::Bool(b) => Ok(Atom::Bool(*b)),
    }
}
