//! What declarations of libraries are by their heads, and the shape of exports (R7RS 5.6.1).
ghost use Rattle.std.specs.Prelude.{◌≡◌, ◌&&◌, not, Option};
ghost use Rattle.std.specs.Option.{is_some};
ghost use Rattle.scheme_model.specs.Data.{Datum as ModelDatum, row};
ghost use Rattle.scheme_model.specs.Declarations.{all_export_parts, is_export_part, is_rename, proper_parts, declared_by, symbol_in};
ghost use Rattle.datum_reader.specs.Views.{datum_of, data_of};
ghost use Rattle.datum_reader.specs.Looks.{end_with};
ghost use Rattle.included_forms.specs.Shapes.{is_declared, two_symbols};

use datum_reader::Datum;
use datum_reader::heads::is_headed;
use datum_reader::look::{Look, Row, look_at, row_of, symbol_in};

/// What a declaration is by the symbol at its head.
#[derive(Clone, Copy)]
pub enum Declared {
    Exports,
    Imports,
    Begins,
    Chooses,
    Includes,
    Undeclared,
}

/// What a declaration is by its head.
pub fn declared_for(head: &Datum) -> Declared
    ensures { is_declared result ≡ declared_by (symbol_in (datum_of head.now)) }
{
    match symbol_in(head) {
        None => Declared::Undeclared,
        Some(symbol) => declared_by(symbol),
    }
}

/// What a declaration is by its symbol.
fn declared_by(symbol: &str) -> Declared
    ensures { is_declared result ≡ declared_by (Some symbol.now) }
{
    if symbol == "export" {
        return Declared::Exports;
    }
    if symbol == "import" {
        return Declared::Imports;
    }
    if symbol == "begin" {
        return Declared::Begins;
    }
    if symbol == "cond-expand" {
        return Declared::Chooses;
    }
    if symbol == "include" {
        return Declared::Includes;
    }
    if symbol == "include-ci" {
        return Declared::Includes;
    }
    if symbol == "include-library-declarations" {
        return Declared::Includes;
    }
    Declared::Undeclared
}

// ---- exports

/// Whether two identifiers stand alone.
fn two_symbols(parts: &[Datum]) -> bool
    ensures { result ≡ two_symbols (data_of parts.now) }
{
    match row_of(parts) {
        Row::Empty => false,
        Row::Parts(first, behind) => match row_of(behind) {
            Row::Empty => false,
            Row::Parts(second, rest) => {
                if !rest.is_empty() {
                    return false;
                }
                symbol_in(first).is_some() && symbol_in(second).is_some()
            }
        },
    }
}

/// Whether a list renames an identifier.
fn is_rename(parts: &[Datum], dotted: bool) -> bool
    ensures { (end : Option ModelDatum) → is_some end ≡ dotted → result ≡ is_rename (proper_parts (row (data_of parts.now) (end_with end))) }
{
    if dotted {
        return false;
    }
    match row_of(parts) {
        Row::Empty => false,
        Row::Parts(_, rest) => two_symbols(rest),
    }
}

/// Whether an export declaration may hold a datum.
fn is_export_part(datum: &Datum) -> bool
    ensures { result ≡ is_export_part (datum_of datum.now) }
{
    match look_at(datum) {
        Look::Name(_) => true,
        Look::Implied(_) => true,
        Look::Numeral(_) => false,
        Look::List(parts, dotted) => is_headed("rename", datum) && is_rename(parts, dotted),
        Look::Other => false,
    }
}

fn all_export_parts(parts: &[Datum]) -> bool
    ensures { result ≡ all_export_parts (data_of parts.now) }
{
    for part in parts {
        if !is_export_part(part) {
            return false;
        }
    }
    true
}

/// Whether the parts of an export declaration have their shapes.
pub fn exports(parts: &[Datum], dotted: bool) -> bool
    ensures { result ≡ (not dotted && all_export_parts (data_of parts.now)) }
{
    !dotted && all_export_parts(parts)
}
