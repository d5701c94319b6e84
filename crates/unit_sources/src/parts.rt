//! The imports of units that are read (R7RS 5.1, 5.2).
ghost use Rattle.std.specs.Prelude.{◌≡◌, map, IfOk, OnOk, Option};
ghost use Rattle.std.specs.Option.{is_some};
ghost use Rattle.scheme_model.specs.Data.{Datum as ModelDatum, Place, list, row};
ghost use Rattle.scheme_model.specs.Program.{behind_first, specs_in, specs_from, spec_of};
ghost use Rattle.scheme_model.specs.Declarations.{is_headed, list_parts, proper_parts};
ghost use Rattle.datum_reader.specs.Views.{datum_of, data_of};
ghost use Rattle.datum_reader.specs.Looks.{end_with};
ghost use Rattle.datum_reader.specs.FirstTokens.{first_token, opening, list_token};
ghost use Rattle.unit_sources.specs.UnitsRead.{form_of, forms_of, AddsSpecs, AreSpecs};

use crate::declared::is_import;
use crate::sets::spec_of;
use crate::units::{ImportSpec, UnitForm};
use datum_reader::Datum;
use datum_reader::heads::behind_first;
use ls_base::{Items, Mem, Memory};
use scheme_model::Home;
use std::alloc::Global;

/// Adds the import sets of a form.
fn add_specs(alloc: Global, specs: &mut Items<ImportSpec>, parts: &[Datum], home: Home) -> Mem<()>
    ensures { OnOk result (AddsSpecs specs.old specs.new (map (spec_of home.unit home.form home.first) (data_of parts.now))) }
{
    for datum in parts {
        let spec = spec_of(alloc, datum, home)?;
        specs.push(spec)?;
    }
    Ok(())
}

/// Adds what a form imports.
fn add_imports(
    alloc: Global,
    specs: &mut Items<ImportSpec>,
    form: &UnitForm,
    unit: u32,
    number: u32,
) -> Mem<()>
    ensures { OnOk result (AddsSpecs specs.old specs.new (specs_in unit number (form_of form.now))) }
{
    if !is_import(form) {
        return Ok(());
    }
    let home = form.home_in(unit, number);
    add_specs(alloc, specs, behind_first(&form.datum), home)
}

/// A form's number. Memory for more than 2^32 forms isn't there.
pub fn number_of(place: usize) -> Mem<u32>
    ensures { IfOk result (λ n. n ≡ place) }
{
    match u32::try_from(place) {
        Ok(number) => Ok(number),
        Err(_) => Err(Memory),
    }
}

/// What the forms of a unit import.
pub fn imports_of(alloc: Global, unit: u32, forms: &[UnitForm]) -> Mem<Items<ImportSpec>>
    ensures { IfOk result (λ specs. AreSpecs specs (specs_from unit 0 (forms_of forms.now))) }
{
    let mut specs = Items::new(alloc);
    for (place, form) in forms.iter().enumerate() {
        let number = number_of(place)?;
        add_imports(alloc, &mut specs, form, unit, number)?;
    }
    Ok(specs)
}
