//! Rows of datum_reader: data as they are read.
use crate::tokens::show_fault;
use datum_reader::{Atom, Datum, Mark, Shape, read_all};
use row_values::argument::{made, made_bytes};
use row_values::fault::{Row, RowFault};
use row_values::shown::Shown;
use serde_json::Value;

pub fn answer(out: &mut Shown, call: &str, argument: &Value) -> Row<()> {
    if !matches!(call, "of" | "innermost" | "size") {
        return Err(RowFault::NoCall);
    }
    let bytes = made_bytes(out.alloc(), argument)?;
    match read_all(out.alloc(), made(&bytes)?) {
        Ok(data) => asked(out, call, data.as_slice())?,
        Err(fault) => show_fault(out, fault),
    }
    Ok(())
}

/// What a call asks of data.
fn asked(out: &mut Shown, call: &str, data: &[Datum]) -> Row<()> {
    match call {
        "of" => show_all(out, data),
        "innermost" => innermost(out, data.first().ok_or(RowFault::NotShown)?),
        "size" => size(out, data.first().ok_or(RowFault::NotShown)?)?,
        _ => return Err(RowFault::NoCall),
    }
    Ok(())
}

#[cycle(shown)]
fn show_all(out: &mut Shown, data: &[Datum]) {
    out.open();
    for datum in data {
        show(out, datum);
    }
    out.close();
}

/// The kind of a datum, and the numbers of its first and last token and its bytes.
fn begin(out: &mut Shown, kind: &str, datum: &Datum) {
    out.open();
    out.string(kind);
    out.numbers(&[datum.first, datum.last, datum.span.start, datum.span.end]);
}

/// A datum: its kind, its place, and what is in it.
#[cycle(shown)]
fn show(out: &mut Shown, datum: &Datum) {
    match &datum.shape {
        Shape::Atom(atom) => show_atom(out, atom, datum),
        Shape::Implied(mark) => show_implied(out, *mark, datum.span.start),
        Shape::List(parts, tail) => {
            begin(out, "list", datum);
            show_all(out, parts.as_slice());
            if let Some(tail) = tail {
                show(out, tail);
            }
            out.close();
        }
        Shape::Vector(parts) => {
            begin(out, "vector", datum);
            show_all(out, parts.as_slice());
            out.close();
        }
        Shape::Bytes(numerals) => {
            begin(out, "bytes", datum);
            out.texts(numerals);
            out.close();
        }
    }
}

fn show_atom(out: &mut Shown, atom: &Atom, datum: &Datum) {
    match atom {
        Atom::Name { name, bars } => {
            begin(out, "name", datum);
            out.string(name.as_str());
            out.flag(*bars);
        }
        Atom::Numeral(text) => {
            begin(out, "numeral", datum);
            out.string(text.as_str());
        }
        Atom::Quoted(text) => {
            begin(out, "string", datum);
            out.string(text.as_str());
        }
        Atom::Char(c) => {
            begin(out, "char", datum);
            out.letter(*c);
        }
        Atom::Bool(value) => {
            begin(out, "bool", datum);
            out.flag(*value);
        }
    }
    out.close();
}

/// The symbol that a mark implies.
fn implied(mark: Mark) -> &'static str {
    match mark {
        Mark::Quote => "quote",
        Mark::Quasi => "quasiquote",
        Mark::Unquote => "unquote",
        Mark::Splice => "unquote-splicing",
    }
}

/// The identifier that a mark implies, which has no token of its own.
fn show_implied(out: &mut Shown, mark: Mark, at: u32) {
    out.open();
    out.string("name");
    out.open();
    out.null();
    out.null();
    out.number(at as u64);
    out.number(at as u64);
    out.close();
    out.string(implied(mark));
    out.flag(false);
    out.close();
}

/// The datum that is reached through first parts, and how many data are round it.
fn innermost(out: &mut Shown, datum: &Datum) {
    let mut inner = datum;
    let mut depth = 0u64;
    while let Shape::List(parts, None) | Shape::Vector(parts) = &inner.shape {
        match parts.first() {
            Some(part) => inner = part,
            None => break,
        }
        depth = depth.saturating_add(1);
    }
    out.open();
    out.number(depth);
    show(out, inner);
    out.close();
}

/// How many parts a list has, or how many bytes a string.
fn size(out: &mut Shown, datum: &Datum) -> Row<()> {
    out.open();
    match &datum.shape {
        Shape::List(parts, None) => {
            out.string("parts");
            out.number(parts.len() as u64);
        }
        Shape::Atom(Atom::Quoted(text)) => {
            out.string("bytes");
            out.number(text.as_str().len() as u64);
        }
        Shape::Atom(_) | Shape::Implied(_) | Shape::List(..) | Shape::Vector(_) | Shape::Bytes(_) =>
            return Err(RowFault::NotShown),
    }
    out.close();
    Ok(())
}
