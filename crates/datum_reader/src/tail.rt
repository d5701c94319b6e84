//! Data that are read, of which a list's parts may not be joined yet: lists that are each other's tails (R7RS 6.4) are joined once.
ghost use Rattle.std.specs.Prelude.{◌≡◌, IfOk};
ghost use Rattle.scheme_model.specs.Data.{Data, list, row, tail, tail_of};
ghost use Rattle.datum_reader.specs.Open as model;
ghost use Rattle.datum_reader.specs.Views.{data_of, datum_of, shape_of, placed};
ghost use Rattle.datum_reader.specs.OpenViews.{spot_of, chained, rest_data, tail_datum};

use crate::copy::copy_all;
use crate::datum::{Datum, Shape};
use crate::open::Spot;
use ls_base::{Mem, Span};
use std::alloc::Global;
use std::rc::Rc;

/// What stands behind a list's parts: runs of more parts, the last run first, and its tail, which is no list.
#[derive(Drop)]
pub struct Rest {
    pub runs: Vec<Vec<Datum>>,
    pub end: Option<Box<Datum>>,
}

/// A list whose parts aren't joined yet, with the numbers of its first and last token, and its bytes.
#[derive(Drop)]
pub struct Chain {
    pub parts: Vec<Datum>,
    pub rest: Rest,
    pub first: u32,
    pub last: u32,
    pub span: Span,
}

/// A datum that was read, which may become a tail.
#[derive(Drop)]
pub enum Tail {
    /// A datum as it is kept.
    Datum(Datum),
    /// A list that has a tail.
    List(Chain),
}

/// Nothing but a tail that is no list.
fn only_end(alloc: Global, shape: Shape, first: u32, last: u32, span: Span) -> Mem<Rest>
    ensures { IfOk result (λ rest. rest_data rest ≡ tail (shape_of shape (placed first last span))) }
{
    let end = Box::new(
        alloc,
        Datum {
            shape,
            first,
            last,
            span,
        },
    )?;
    Ok(Rest {
        runs: Vec::new(alloc),
        end: Some(end),
    })
}

/// One run more in front of others.
fn run_more(runs: Vec<Vec<Datum>>, run: Vec<Datum>) -> Mem<Vec<Vec<Datum>>>
    ensures { IfOk result (λ all. (end : Data) → chained end all.items ≡ row (data_of run.items) (chained end runs.items)) }
{
    let mut runs = runs;
    runs.push(run)?;
    Ok(runs)
}

/// Parts out of what may be shared: copies, where it is.
fn own(alloc: Global, shared: Rc<Vec<Datum>>) -> Mem<Vec<Datum>>
    ensures { IfOk result (λ parts. data_of parts.items ≡ data_of shared.value.items) }
{
    match Rc::try_unwrap(shared) {
        Ok(parts) => Ok(parts),
        Err(shared) => Ok(copy_all(alloc, &shared)?),
    }
}

/// What a tail that is kept adds to its list.
fn rest_of_datum(alloc: Global, datum: Datum) -> Mem<Rest>
    ensures { IfOk result (λ rest. rest_data rest ≡ tail_of (datum_of datum)) }
{
    let Datum {
        shape,
        first,
        last,
        span,
    } = datum;
    match shape {
        Shape::List(parts, end) => {
            let runs = run_more(Vec::new(alloc), own(alloc, parts)?)?;
            Ok(Rest { runs, end })
        }
        Shape::Atom(atom) => Ok(only_end(alloc, Shape::Atom(atom), first, last, span)?),
        Shape::Implied(mark) => Ok(only_end(alloc, Shape::Implied(mark), first, last, span)?),
        Shape::Vector(items) => Ok(only_end(alloc, Shape::Vector(items), first, last, span)?),
        Shape::Bytes(texts) => Ok(only_end(alloc, Shape::Bytes(texts), first, last, span)?),
    }
}

/// What a tail adds to its list.
fn rest_of(alloc: Global, tail: Tail) -> Mem<Rest>
    ensures { IfOk result (λ rest. rest_data rest ≡ tail_of (tail_datum tail)) }
{
    match tail {
        Tail::Datum(datum) => Ok(rest_of_datum(alloc, datum)?),
        Tail::List(chain) => {
            let Chain {
                parts,
                rest,
                first: _,
                last: _,
                span: _,
            } = chain;
            let Rest { runs, end } = rest;
            let runs = run_more(runs, parts)?;
            Ok(Rest { runs, end })
        }
    }
}

/// A list with a tail, from one token up to another. Its parts are the list's own where the tail is a list.
pub fn with_tail(alloc: Global, parts: Vec<Datum>, tail: Tail, first: Spot, last: Spot) -> Mem<Tail>
    ensures { IfOk result (λ t. tail_datum t ≡ list (model.between (spot_of first) (spot_of last)) (row (data_of parts.items) (tail_of (tail_datum tail)))) }
{
    let rest = rest_of(alloc, tail)?;
    Ok(Tail::List(Chain {
        parts,
        rest,
        first: first.number,
        last: last.number,
        span: Span {
            start: first.span.start,
            end: last.span.end,
        },
    }))
}

/// Parts, and the runs behind them.
fn joined(parts: Vec<Datum>, runs: Vec<Vec<Datum>>) -> Mem<Vec<Datum>>
    ensures { IfOk result (λ all. (end : Data) → row (data_of all.items) end ≡ row (data_of parts.items) (chained end runs.items)) }
{
    let mut parts = parts;
    let mut runs = runs;
    while let Some(mut run) = runs.pop() {
        parts.append(&mut run)?;
    }
    Ok(parts)
}

/// A datum as it is kept, with a list's parts joined.
#[inline(always)]
pub fn joined_datum(alloc: Global, tail: Tail) -> Mem<Datum>
    ensures { IfOk result (λ d. datum_of d ≡ tail_datum tail) }
{
    match tail {
        Tail::Datum(datum) => Ok(datum),
        Tail::List(chain) => {
            let Chain {
                parts,
                rest,
                first,
                last,
                span,
            } = chain;
            let Rest { runs, end } = rest;
            let parts = joined(parts, runs)?;
            Ok(Datum {
                shape: Shape::List(Rc::new(alloc, parts)?, end),
                first,
                last,
                span,
            })
        }
    }
}
