//! The identifiers of units, by where their tokens stand in the forms.
ghost use Rattle.std.specs.Prelude.{◌≡◌, ◌++◌, [], ◌∷◌, List, if◌then◌else◌, IfOk, OnOk};
ghost use Rattle.std.specs.Option.{is_some};
ghost use Rattle.scheme_model.specs.Data.{spelled};
ghost use Rattle.scheme_model.specs.Declarations.{atom_symbol};
ghost use Rattle.datum_reader.specs.Views.{data_of, datum_of, leaf_of};
ghost use Rattle.unit_sources.specs.UnitsRead.{form_of, forms_of};
ghost use Rattle.document_units.specs.Identifiers.{all_names, end_names, occ_in, occs_in};
ghost use Rattle.scheme_model.specs.Sites as sites;

use datum_reader::{Atom, Datum, Shape};
use ls_base::{Mem, Memory};
use scheme_model::Occ;
use std::alloc::Global;
use unit_sources::UnitForm;

/// A form's unit and number, and the number of its first token in the text.
#[derive(Clone, Copy)]
struct FormAt {
    unit: u32,
    form: u32,
    first: u32,
}

impl FormAt {
    /// The occurrence of a token by its number in the text: numbers of a form count from its first token.
    fn occ(self, token: u32) -> Occ
        ensures { result ≡ occ_in self.unit self.form self.first token }
    {
        Occ {
            unit: self.unit,
            form: self.form,
            token: token.saturating_sub(self.first),
        }
    }
}

/// The identifiers of the forms of a unit's own text, in order. More forms than a number can tell are answered as want of memory.
pub fn names_of(alloc: Global, unit: u32, forms: &[UnitForm]) -> Mem<Vec<Occ>>
    ensures { IfOk result (λ names. names.items ≡ sites.names_in_forms unit 0 (forms_of forms.now)) }
{
    if forms.len() > u32::MAX as usize {
        return Err(Memory);
    }
    let mut names = Vec::new(alloc);
    for (number, form) in forms.iter().enumerate() {
        add_form(&mut names, unit, number as u32, form)?;
    }
    Ok(names)
}

/// Adds the identifiers of the form with this number, unless its text is included.
fn add_form(names: &mut Vec<Occ>, unit: u32, number: u32, form: &UnitForm) -> Mem<()>
    ensures { OnOk result (names.new.items ≡ names.old.items ++ sites.names_in_forms unit number (form_of form.now ∷ [])) }
{
    if form.home.is_some() {
        return Ok(());
    }
    let at = FormAt {
        unit,
        form: number,
        first: form.datum.first,
    };
    add_datum(names, at, &form.datum)
}

/// Adds the identifiers of a part of a form.
#[cycle(names)]
fn add_datum(names: &mut Vec<Occ>, at: FormAt, datum: &Datum) -> Mem<()>
    ensures { OnOk result (names.new.items ≡ names.old.items ++ occs_in at.unit at.form at.first (sites.name_tokens (datum_of datum.now))) }
{
    match &datum.shape {
        Shape::Atom(atom) => Ok(add_atom(names, at.occ(datum.first), atom)?),
        Shape::Implied(_) | Shape::Bytes(_) => Ok(()),
        Shape::Vector(parts) => Ok(add_parts(names, at, parts.as_slice())?),
        Shape::List(parts, end) => {
            add_parts(names, at, parts.as_slice())?;
            Ok(add_end(names, at, end)?)
        }
    }
}

/// Adds an atom that is an identifier.
fn add_atom(names: &mut Vec<Occ>, occ: Occ, atom: &Atom) -> Mem<()>
    ensures { OnOk result (names.new.items ≡ names.old.items ++ (if is_some (atom_symbol (spelled (leaf_of atom.now))) then occ ∷ [] else [])) }
{
    if let Atom::Name { .. } = atom {
        names.push(occ)?;
    }
    Ok(())
}

/// Adds the identifiers of the parts of a list or a vector.
#[cycle(names)]
fn add_parts(names: &mut Vec<Occ>, at: FormAt, parts: &[Datum]) -> Mem<()>
    ensures { OnOk result (names.new.items ≡ names.old.items ++ occs_in at.unit at.form at.first (all_names (data_of parts.now))) }
{
    for part in parts {
        add_datum(names, at, part)?;
    }
    Ok(())
}

/// Adds the identifiers of a list's tail, where it has one.
#[cycle(names)]
fn add_end(names: &mut Vec<Occ>, at: FormAt, end: &Option<Box<Datum>>) -> Mem<()>
    ensures { OnOk result (names.new.items ≡ names.old.items ++ occs_in at.unit at.form at.first (end_names end.now)) }
{
    match end {
        None => Ok(()),
        Some(datum) => Ok(add_datum(names, at, datum)?),
    }
}
