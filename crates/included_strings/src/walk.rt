//! The strings of all lists that include other texts, however deep they stand in data.
ghost use Rattle.std.specs.Prelude.{◌≡◌, ◌++◌, [], ◌∷◌, List, IfOk, OnOk, Option};
ghost use Rattle.scheme_model.specs.Includes.{StringAt, strings_in};
ghost use Rattle.datum_reader.specs.Views.{datum_of, data_of};
ghost use Rattle.included_strings.specs.Strings.{AreStrings, strings_among, texts_in, texts_in_all, texts_in_end, texts_now, texts_of, texts_or_none};

use crate::strings::{includes, includes_declarations, string_in};
use datum_reader::{Datum, Shape};
use ls_base::Mem;
use std::alloc::Global;

/// The strings of all lists in data that include, in the order in which they stand.
pub fn strings_in(alloc: Global, data: &[Datum]) -> Mem<Vec<&str>>
    ensures { IfOk result (λ strings. texts_now strings.items ≡ texts_in_all (data_of data.now)) }
{
    let mut strings = Vec::new(alloc);
    add_parts(&mut strings, data)?;
    Ok(strings)
}

/// Adds the strings of a datum.
#[cycle(walk)]
fn add_datum<'a>(strings: &mut Vec<&'a str>, datum: &'a Datum) -> Mem<()>
    ensures { OnOk result (texts_now strings.new.items ≡ texts_now strings.old.items ++ texts_in (datum_of datum.now)) }
{
    match &datum.shape {
        Shape::Atom(_) | Shape::Implied(_) | Shape::Bytes(_) => Ok(()),
        Shape::Vector(parts) => Ok(add_parts(strings, parts.as_slice())?),
        Shape::List(parts, end) => {
            add_strings(strings, includes(datum))?;
            add_strings(strings, includes_declarations(datum))?;
            add_parts(strings, parts.as_slice())?;
            Ok(add_end(strings, end)?)
        }
    }
}

/// Adds the strings of the parts of a list or a vector.
#[cycle(walk)]
fn add_parts<'a>(strings: &mut Vec<&'a str>, parts: &'a [Datum]) -> Mem<()>
    ensures { OnOk result (texts_now strings.new.items ≡ texts_now strings.old.items ++ texts_in_all (data_of parts.now)) }
{
    for part in parts {
        add_datum(strings, part)?;
    }
    Ok(())
}

/// Adds the strings of a list's tail, where it has one.
#[cycle(walk)]
fn add_end<'a>(strings: &mut Vec<&'a str>, end: &'a Option<Box<Datum>>) -> Mem<()>
    ensures { OnOk result (texts_now strings.new.items ≡ texts_now strings.old.items ++ texts_in_end end.now) }
{
    match end {
        None => Ok(()),
        Some(datum) => Ok(add_datum(strings, datum)?),
    }
}

/// Adds the strings of a list that includes.
fn add_strings<'a>(strings: &mut Vec<&'a str>, included: Option<&'a [Datum]>) -> Mem<()>
    ensures { (ss : Option (List StringAt)) → AreStrings included.entry ss → OnOk result (texts_now strings.new.items ≡ texts_now strings.old.items ++ texts_or_none ss) }
{
    match included {
        None => Ok(()),
        Some(data) => Ok(add_all(strings, data)?),
    }
}

/// Adds those of data that are strings.
fn add_all<'a>(strings: &mut Vec<&'a str>, data: &'a [Datum]) -> Mem<()>
    ensures { OnOk result (texts_now strings.new.items ≡ texts_now strings.old.items ++ texts_of (strings_among (data_of data.now))) }
{
    for datum in data {
        add_one(strings, datum)?;
    }
    Ok(())
}

/// Adds a datum that is a string.
fn add_one<'a>(strings: &mut Vec<&'a str>, datum: &'a Datum) -> Mem<()>
    ensures { OnOk result (texts_now strings.new.items ≡ texts_now strings.old.items ++ texts_of (strings_among (datum_of datum.now ∷ []))) }
{
    if let Some(string) = string_in(datum) {
        strings.push(string)?;
    }
    Ok(())
}
