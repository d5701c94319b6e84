//! What the forms of a unit define (R7RS 5.3), and which of these hide an import.
ghost use Rattle.std.specs.Prelude.{◌≡◌, ◌<◌, ◌++◌, List, [], map, reverse, length, slice_get, Some, OnOk, IfOk};
ghost use Rattle.std.specs.Option.{option_map};
ghost use Rattle.scheme_model.specs.Ident.{Ident as Identifier};
ghost use Rattle.scheme_model.specs.Entries as model;
ghost use Rattle.scheme_model.specs.Program.{UnitResult, names_of_unit};
ghost use Rattle.scheme_model.specs.Diagnostics.{bytes_of, hiding_diagnostics};
ghost use Rattle.scheme_model.specs.Substitution.{Table};
ghost use Rattle.syntax_tree.specs.Meant.{AreEntries};
ghost use Rattle.scheme_model.specs.UnitExpansion.{Formed};
ghost use Rattle.syntax_tree.specs.declared.trees.Work.{Work as TreeWork};
ghost use Rattle.core_tree.specs.Units.{AreDefinitions, FormsStand, defined_by, definitions_from};
ghost use Rattle.unit_imports.specs.Defined.{AreKnown, FindsNames, hidden_at, named_all, named_as, symbol_at, symbol_in, written_symbol};
ghost use Rattle.unit_imports.specs.Hiding.{has_fault, hidden_found};
ghost use Rattle.read_documents.specs.Findings.{Adds};
ghost use Rattle.unit_imports.specs.EntriesMeant.{HaveMeaning};
ghost use Rattle.read_documents.specs.Places.{AreFoundIn, ArePlaces, CanPlace, spans_of};
ghost use Rattle.read_documents.specs.Readings.{Read};

use crate::joining::{Joined, own_origin};
use core_tree::cores::Binder;
use core_tree::units::UnitForm;
use import_sets::copy::copy_of_entries;
use ls_base::{Items, Mem, Text};
use read_documents::findings::Finding;
use read_documents::form_numbers::number_of;
use read_documents::places::Places;
use std::alloc::Global;
use syntax_tree::meaning::Meaning;
use syntax_tree::symbols::{IdNo, Ident, Symbols};
use syntax_tree::units::Entry;

/// The symbol of an identifier that is written, and not inserted.
fn written(symbols: &Symbols, ident: IdNo) -> Option<&str>
    requires { ident < length symbols.now.idents }
    ensures { (i : Identifier) → slice_get symbols.now.idents ident ≡ Some i → option_map (λ s. s.now) result ≡ written_symbol i }
{
    match symbols.ident_at(ident) {
        Ident::Written { unit: _, symbol } => Some(symbols.name(symbol)),
        Ident::Inserted { id: _, number: _ } => None,
    }
}

/// The symbol of an identifier that is written in a unit.
fn written_in(symbols: &Symbols, home: u32, ident: IdNo) -> Option<&str>
    requires { ident < length symbols.now.idents }
    ensures { (i : Identifier) → slice_get symbols.now.idents ident ≡ Some i → option_map (λ s. s.now) result ≡ symbol_in home i }
{
    match symbols.ident_at(ident) {
        Ident::Written { unit, symbol } => {
            if unit == home {
                Some(symbols.name(symbol))
            } else {
                None
            }
        }
        Ident::Inserted { id: _, number: _ } => None,
    }
}

/// What forms define, in order, each with its form.
pub fn definitions(alloc: Global, forms: &[&UnitForm]) -> Mem<Vec<(u32, Binder)>>
    ensures { IfOk result (λ all. all.items ≡ definitions_from 0 (map (λ form. form.now) forms.now)) }
{
    let mut all = Vec::new(alloc);
    for (place, form) in forms.iter().enumerate() {
        let number = number_of(place)?;
        add_definitions(&mut all, number, form.trace.definitions.as_slice())?;
    }
    Ok(all)
}

/// Adds what a form defines.
fn add_definitions(all: &mut Vec<(u32, Binder)>, form: u32, binders: &[Binder]) -> Mem<()>
    ensures { OnOk result (all.new.items ≡ all.old.items ++ map (λ b. (form, b)) binders.now) }
{
    for binder in binders {
        all.push((form, *binder))?;
    }
    Ok(())
}

/// What can be exported of a unit: what it defines under names that are written in it, the latest first, and then what it imports.
pub fn names_of(
    alloc: Global,
    symbols: &Symbols,
    unit: u32,
    defined: &[(u32, Binder)],
    joined: &Joined,
) -> Mem<Vec<Entry>>
    requires known { AreKnown symbols.now defined.now }
    requires imported { HaveMeaning symbols.now joined.now.entries.items }
    ensures means { IfOk result (λ names. HaveMeaning symbols.now names.items) }
    ensures exact { IfOk result (λ names. names.items ≡ named_all symbols.now unit (reverse defined.now) ++ joined.now.entries.items) }
    ensures finds { (table : Table) → AreDefinitions symbols.now (reverse defined.now) (defined_by unit table) →
        (es : List model.Entry) → AreEntries symbols.now joined.now.entries.items es →
        IfOk result (λ names. FindsNames symbols.now names.items (names_of_unit table unit es)) }
{
    let mut names = Vec::new(alloc);
    for (_, binder) in defined.iter().rev() {
        add_name(alloc, &mut names, symbols, unit, *binder)?;
    }
    add_entries(
        &mut names,
        copy_of_entries(alloc, joined.entries.as_slice())?,
    )?;
    Ok(names)
}

/// Adds entries at the end.
fn add_entries(names: &mut Vec<Entry>, entries: Items<Entry>) -> Mem<()>
    ensures { OnOk result (names.new.items ≡ names.old.items ++ entries) }
{
    for entry in entries.into_vec() {
        names.push(entry)?;
    }
    Ok(())
}

/// Adds a definition as a name that can be exported, if it is written in its unit.
fn add_name(
    alloc: Global,
    names: &mut Vec<Entry>,
    symbols: &Symbols,
    unit: u32,
    binder: Binder,
) -> Mem<()>
    requires { binder.ident < length symbols.now.idents }
    ensures means { HaveMeaning symbols.now names.old.items → OnOk result (HaveMeaning symbols.now names.new.items) }
    ensures exact { OnOk result (names.new.items ≡ names.old.items ++ named_as unit binder (symbol_at unit (slice_get symbols.now.idents binder.ident))) }
{
    let Some(name) = written_in(symbols, unit, binder.ident) else {
        return Ok(());
    };
    names.push(Entry {
        name: Text::of(alloc, name)?,
        meaning: Meaning::Global {
            unit,
            ident: binder.ident,
        },
        origins: own_origin(alloc, binder.occ)?,
    })?;
    Ok(())
}

/// Adds the definitions that hide an import, the latest first. What a form with a fault defines isn't told.
pub fn add_hiding(
    alloc: Global,
    symbols: &Symbols,
    places: Places<'_>,
    unit: u32,
    forms: &[&UnitForm],
    defined: &[(u32, Binder)],
    joined: &Joined,
    findings: &mut Vec<Finding>,
) -> Mem<()>
    requires known { AreKnown symbols.now defined.now }
    requires documents { 0 < length places.documents.now }
    requires places { CanPlace places }
    ensures inside { AreFoundIn (length places.entry.documents.now) findings.old.items → OnOk result (AreFoundIn (length places.entry.documents.now) findings.new.items) }
    ensures exact { (rs : List Read) (us : List UnitResult) (table : Table) (es : List model.Entry) → ArePlaces places.entry rs us → AreDefinitions symbols.now (reverse defined.now) (defined_by unit table) →
        AreEntries symbols.now joined.now.entries.items es → (work : TreeWork) (fs : List Formed) → FormsStand work unit 0 (map (λ form. form.now) forms.now) fs →
        OnOk result (Adds findings.old.items findings.new.items (hiding_diagnostics (bytes_of (spans_of rs) us) unit fs es table) []) }
{
    for (form, binder) in defined.iter().rev() {
        if is_broken(forms, *form) {
            continue;
        }
        add_hidden(
            alloc, symbols, places, unit, *form, *binder, joined, findings,
        )?;
    }
    Ok(())
}

/// Whether the form with a number has a fault.
fn is_broken(forms: &[&UnitForm], number: u32) -> bool
    ensures { result ≡ has_fault (slice_get (map (λ form. form.now) forms.now) number) }
{
    match forms.get(number as usize) {
        None => false,
        Some(form) => form.fault.is_some(),
    }
}

/// Adds a definition, if it hides an import.
fn add_hidden(
    alloc: Global,
    symbols: &Symbols,
    places: Places<'_>,
    unit: u32,
    form: u32,
    binder: Binder,
    joined: &Joined,
    findings: &mut Vec<Finding>,
) -> Mem<()>
    requires known { binder.ident < length symbols.now.idents }
    requires documents { 0 < length places.documents.now }
    requires places { CanPlace places }
    ensures inside { AreFoundIn (length places.entry.documents.now) findings.old.items → OnOk result (AreFoundIn (length places.entry.documents.now) findings.new.items) }
    ensures exact { (rs : List Read) (us : List UnitResult) → ArePlaces places.entry rs us → OnOk result (findings.new.items
        ≡ findings.old.items ++ hidden_found (bytes_of (spans_of rs) us) unit form binder.occ (hidden_at joined.now.entries.items (slice_get symbols.now.idents binder.ident))) }
{
    let Some(name) = hidden(symbols, joined, binder) else {
        return Ok(());
    };
    let spot = places.at_or_form(binder.occ, unit, form);
    let finding = Finding::new(alloc, Some(spot), form, 101, name)?;
    findings.push(finding)?;
    Ok(())
}

/// The imported name that a definition hides, where it hides one.
fn hidden<'a>(symbols: &'a Symbols, joined: &Joined, binder: Binder) -> Option<&'a str>
    requires { binder.ident < length symbols.now.idents }
    ensures { option_map (λ s. s.now) result ≡ hidden_at joined.now.entries.items (slice_get symbols.now.idents binder.ident) }
{
    let Some(name) = written(symbols, binder.ident) else {
        return None;
    };
    if joined.has(name) { Some(name) } else { None }
}
