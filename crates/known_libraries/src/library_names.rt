//! The names of libraries (R7RS 5.6.1) as texts.
ghost use Rattle.std.specs.Prelude.{◌≡◌, ℕ, List, IfOk};
ghost use Rattle.std.specs.List.{list_all};
ghost use Rattle.std.specs.Char.{is_ascii_digit};
ghost use Rattle.std.specs.String.{string_bytes};
ghost use Rattle.scheme_model.specs.declared.Occ.{Occ};
ghost use Rattle.scheme_model.specs.Trees.{Tail, tree, Numeral};
ghost use Rattle.scheme_model.specs.Requirements.{Symbol, part_in, part_of, parts_of, library_name_of};
ghost use Rattle.datum_reader.specs.Looks.{tree_at, trees_at, is_dotted};
ghost use Rattle.known_libraries.specs.PartsRead.{Reads, map_ok, part_text, library_text, name_in_list, Puts, PutsAll};

use datum_reader::Datum;
use datum_reader::look::{Look, Row, look_at, row_of};
use datum_reader::shape_fault::ShapeFault;
use ls_base::{Mem, Text};
use scheme_tokens::spell;
use std::alloc::Global;

/// Whether these bytes are decimal digits alone.
fn all_digits(bytes: &[u8]) -> bool
    ensures { result ≡ list_all is_ascii_digit bytes.now }
{
    for digit in bytes {
        if !digit.is_ascii_digit() {
            return false;
        }
    }
    true
}

/// Whether a text has decimal digits alone.
fn is_digits(text: &str) -> bool
    ensures { result ≡ list_all is_ascii_digit text.now }
{
    all_digits(text.as_bytes())
}

/// A numeral of decimal digits.
fn digits(alloc: Global, text: &str) -> Result<Text, ShapeFault>
    ensures { Reads (λ t. t) result (map_ok part_text (part_in {A = List ℕ} (Numeral text.now))) }
{
    if is_digits(text) {
        return Ok(Text::of(alloc, text)?);
    }
    Err(ShapeFault::BadForm)
}

/// A symbol as it is written.
fn symbol_text(alloc: Global, symbol: &str) -> Mem<Text>
    ensures { IfOk result (λ text. text ≡ part_text (Symbol symbol.now)) }
{
    let written = spell(alloc, symbol, false)?;
    Ok(Text::of(alloc, written.as_str())?)
}

/// The text of a part of a library's name.
fn part_text(alloc: Global, part: &Datum) -> Result<Text, ShapeFault>
    ensures { (place : ℕ → Occ) → Reads (λ t. t) result (map_ok part_text (part_of (λ s. s) (tree_at place part.now))) }
{
    match look_at(part) {
        Look::Name(symbol) => Ok(symbol_text(alloc, symbol)?),
        Look::Implied(symbol) => Ok(symbol_text(alloc, symbol)?),
        Look::Numeral(text) => digits(alloc, text),
        Look::List(_, _) => Err(ShapeFault::BadForm),
        Look::Other => Err(ShapeFault::BadForm),
    }
}

/// Adds the text of a part to a text.
fn put_part(alloc: Global, text: &mut String, part: &Datum) -> Result<(), ShapeFault>
    ensures { (place : ℕ → Occ) → Puts (string_bytes text.old) (string_bytes text.new) result (part_of (λ s. s) (tree_at place part.now)) }
{
    let written = part_text(alloc, part)?;
    text.push_str(written.as_str())?;
    Ok(())
}

/// Adds the texts of parts to a text, each behind a space.
fn put_parts(alloc: Global, text: &mut String, parts: &[Datum]) -> Result<(), ShapeFault>
    ensures { (place : ℕ → Occ) → PutsAll (string_bytes text.old) (string_bytes text.new) result (parts_of (λ s. s) (trees_at place parts.now)) }
{
    for part in parts {
        text.push_str(" ")?;
        put_part(alloc, text, part)?;
    }
    Ok(())
}

/// The text of a library's name, by its parts.
fn name_of_parts(alloc: Global, parts: &[Datum], dotted: bool) -> Result<Text, ShapeFault>
    ensures { (place : ℕ → Occ) (end : Tail (List ℕ)) → is_dotted end ≡ dotted →
        Reads (λ t. t) result (map_ok library_text (name_in_list (trees_at place parts.now) end)) }
{
    if dotted {
        return Err(ShapeFault::BadForm);
    }
    match row_of(parts) {
        Row::Empty => Err(ShapeFault::BadForm),
        Row::Parts(first, rest) => Ok(name_of_row(alloc, first, rest)?),
    }
}

/// The text of a library's name, by its first part and those behind it.
fn name_of_row(alloc: Global, first: &Datum, rest: &[Datum]) -> Result<Text, ShapeFault>
    ensures { (place : ℕ → Occ) → Reads (λ t. t) result (map_ok library_text (parts_of (λ s. s) (tree (tree_at place first.now) (trees_at place rest.now)))) }
{
    let mut text = String::from_str(alloc, "(")?;
    put_part(alloc, &mut text, first)?;
    put_parts(alloc, &mut text, rest)?;
    text.push_str(")")?;
    Ok(Text::from_string(text))
}

/// The text of a library's name: of a proper list of identifiers and of numerals of decimal digits, one at least.
pub fn library_name(alloc: Global, datum: &Datum) -> Result<Text, ShapeFault>
    ensures { (place : ℕ → Occ) → Reads (λ t. t) result (map_ok library_text (library_name_of (λ s. s) (tree_at place datum.now))) }
{
    match look_at(datum) {
        Look::List(parts, dotted) => name_of_parts(alloc, parts, dotted),
        Look::Name(_) => Err(ShapeFault::BadForm),
        Look::Implied(_) => Err(ShapeFault::BadForm),
        Look::Numeral(_) => Err(ShapeFault::BadForm),
        Look::Other => Err(ShapeFault::BadForm),
    }
}
