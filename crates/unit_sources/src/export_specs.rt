//! The exports of units that are read (R7RS 5.6.1).
ghost use Rattle.std.specs.Prelude.{◌≡◌, ◌++◌, List, ℕ, IfOk, OnOk, Option, option_map, option_to_list};
ghost use Rattle.scheme_model.specs.declared.Occ.{Occ};
ghost use Rattle.scheme_model.specs.Trees.{Tree, name as name_tree, list as list_tree, Trees, tree, Tail};
ghost use Rattle.scheme_model.specs.Program.{export_of, exports_in, exports_from, exports_with};
ghost use Rattle.import_sets.specs.Sets.{named};
ghost use Rattle.datum_reader.specs.Views.{data_of};
ghost use Rattle.datum_reader.specs.Looks.{tree_at, trees_at};
ghost use Rattle.datum_reader.specs.Forms.{place};
ghost use Rattle.unit_sources.specs.UnitsRead.{form_of, forms_of, named_in, AddsExports, AreExportsRead, IsExportOf};

use crate::declared::is_export;
use crate::names::name_of;
use crate::parts::number_of;
use crate::units::{ExportSpec, UnitForm};
use datum_reader::Datum;
use datum_reader::heads::behind_first;
use datum_reader::look::{Look, Row, look_at, row_of};
use datum_reader::shape_fault::ShapeFault;
use import_sets::SetName;
use ls_base::{Items, Mem, Memory};
use scheme_model::Home;
use std::alloc::Global;

/// An identifier that is exported as it is.
fn itself(form: u32, name: SetName) -> Mem<ExportSpec>
    ensures { IfOk result (λ spec. (spec.form ≡ form) × (spec.inner ≡ name) × (spec.outer ≡ name)) }
{
    let inner = SetName {
        name: name.name.clone()?,
        occ: name.occ,
    };
    Ok(ExportSpec {
        form,
        inner,
        outer: name,
    })
}

/// An identifier, if a datum is one.
fn name_if(alloc: Global, datum: &Datum, home: Home) -> Mem<Option<SetName>>
    ensures { IfOk result (λ name. option_map named name ≡ named_in (tree_at (place home) datum.now)) }
{
    match name_of(alloc, datum, home) {
        Ok(name) => Ok(Some(name)),
        Err(ShapeFault::BadForm) => Ok(None),
        Err(ShapeFault::Memory) => Err(Memory),
    }
}

/// The export that a part of an export declaration is.
fn export_of(alloc: Global, datum: &Datum, number: u32, home: Home) -> Mem<Option<ExportSpec>>
    ensures { IfOk result (λ spec. IsExportOf spec (export_of number (tree_at (place home) datum.now))) }
{
    match look_at(datum) {
        Look::List(parts, _) => renamed_export(alloc, parts, number, home),
        Look::Name(_) => plain_export(alloc, datum, number, home),
        Look::Implied(_) => plain_export(alloc, datum, number, home),
        Look::Numeral(_) => Ok(None),
        Look::Other => Ok(None),
    }
}

/// An identifier as an export.
fn plain_export(alloc: Global, datum: &Datum, number: u32, home: Home) -> Mem<Option<ExportSpec>>
    ensures { IfOk result (λ spec. (s : List ℕ) (o : Option Occ) → tree_at (place home) datum.now ≡ name_tree s o → IsExportOf spec (export_of number (name_tree s o))) }
{
    match name_if(alloc, datum, home)? {
        None => Ok(None),
        Some(name) => Ok(Some(itself(number, name)?)),
    }
}

/// An export under another name, by the parts of its list.
fn renamed_export(
    alloc: Global,
    parts: &[Datum],
    number: u32,
    home: Home,
) -> Mem<Option<ExportSpec>>
    ensures { IfOk result (λ spec. (end : Tail (List ℕ)) (o : Option Occ) → IsExportOf spec (export_of number (list_tree (trees_at (place home) parts.now) end o))) }
{
    match row_of(parts) {
        Row::Empty => Ok(None),
        Row::Parts(_, behind) => match row_of(behind) {
            Row::Empty => Ok(None),
            Row::Parts(inner, rest) => match row_of(rest) {
                Row::Empty => Ok(None),
                Row::Parts(outer, _) => two_names(alloc, inner, outer, number, home),
            },
        },
    }
}

/// An export by its two identifiers.
fn two_names(
    alloc: Global,
    inner: &Datum,
    outer: &Datum,
    number: u32,
    home: Home,
) -> Mem<Option<ExportSpec>>
    ensures { IfOk result (λ spec. (r : Tree (List ℕ)) (ts : Trees (List ℕ)) (end : Tail (List ℕ)) (o : Option Occ) →
        IsExportOf spec (export_of number (list_tree (tree r (tree (tree_at (place home) inner.now) (tree (tree_at (place home) outer.now) ts))) end o))) }
{
    let Some(inner) = name_if(alloc, inner, home)? else {
        return Ok(None);
    };
    let Some(outer) = name_if(alloc, outer, home)? else {
        return Ok(None);
    };
    let form = number;
    Ok(Some(ExportSpec { form, inner, outer }))
}

/// Adds an export, if there is one.
fn add_export(specs: &mut Items<ExportSpec>, spec: Option<ExportSpec>) -> Mem<()>
    ensures { OnOk result (specs.new ≡ specs.old ++ option_to_list spec) }
{
    if let Some(spec) = spec {
        specs.push(spec)?;
    }
    Ok(())
}

/// Adds the exports of the parts of a declaration.
fn add_all(
    alloc: Global,
    specs: &mut Items<ExportSpec>,
    parts: &[Datum],
    number: u32,
    home: Home,
) -> Mem<()>
    ensures { OnOk result (AddsExports specs.old specs.new (exports_with number home (data_of parts.now))) }
{
    for datum in parts {
        let spec = export_of(alloc, datum, number, home)?;
        add_export(specs, spec)?;
    }
    Ok(())
}

/// Adds what a form exports.
fn add_exports(
    alloc: Global,
    specs: &mut Items<ExportSpec>,
    form: &UnitForm,
    unit: u32,
    number: u32,
) -> Mem<()>
    ensures { OnOk result (AddsExports specs.old specs.new (exports_in unit number (form_of form.now))) }
{
    if !is_export(form) {
        return Ok(());
    }
    let home = form.home_in(unit, number);
    add_all(alloc, specs, behind_first(&form.datum), number, home)
}

/// What the forms of a unit export.
pub fn exports_read(alloc: Global, unit: u32, forms: &[UnitForm]) -> Mem<Items<ExportSpec>>
    ensures { IfOk result (λ specs. AreExportsRead specs (exports_from unit 0 (forms_of forms.now))) }
{
    let mut specs = Items::new(alloc);
    for (place, form) in forms.iter().enumerate() {
        let number = number_of(place)?;
        add_exports(alloc, &mut specs, form, unit, number)?;
    }
    Ok(specs)
}
