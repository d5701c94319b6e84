//! What breaks a unit as a whole, and the order in which the others are expanded (R7RS 5.6).
ghost use Rattle.std.specs.Prelude.{◌≡◌, ◌<◌, ◌≤◌, ◌++◌, ℕ, List, Some, true, take, length, slice_get, vec_len, IfOk, OnOk};
ghost use Rattle.std.specs.Option.{option_map, option_to_list};
ghost use Rattle.std.specs.BTreeMap.{get_by_text};
ghost use Rattle.scheme_model.specs.Requirements.{LibraryName};
ghost use Rattle.scheme_model.specs.Includes.{max_units};
ghost use Rattle.scheme_model.specs.IncludedUnits.{Placed};
ghost use Rattle.scheme_model.specs.Program.{Prepared, is_in, on_circle};
ghost use Rattle.base_library.specs.Texts.{SpellsStandard};
ghost use Rattle.unit_sources.specs.Named.{place_named, imported_places};
ghost use Rattle.unit_sources.specs.Orders.{with_imports, AreInTurn, ArePlaces};
ghost use Rattle.unit_sources.specs.Sources.{TellsNames, AreUnits};
ghost use Rattle.read_documents.specs.Libraries.{FindsBelow, library_of, places_by};
ghost use Rattle.read_documents.specs.Places.{HeadsStay};
ghost use Rattle.read_documents.specs.Broken.{broken_by, broken_if, Breaks, BreaksStandard, FindsImports, Forgets, AreListed, AreJudged, SourcesStay};
ghost use Rattle.document_units.specs.Turned.{turns};

use crate::known::has_standard_name;
use crate::listing::Units;
use import_sets::ImportSet;
use import_sets::firsts::{place_for, place_in};
use ls_base::limits::MAX_UNITS;
use ls_base::{Items, Mem, Memory, Text};
use read_documents::heads::{Head, WholeFault};
use read_documents::sets::Firsts;
use std::alloc::Global;
use std::collections::BTreeMap;
use unit_sources::firsts::first_places;
use unit_sources::{ImportSpec, LibraryFault, UnitSource, order, repeated};

/// The place of the first unit with each name.
pub fn firsts(alloc: Global, sources: &[UnitSource]) -> Mem<Firsts>
    ensures named { IfOk result (λ firsts. (s : List ℕ) → get_by_text firsts s ≡ place_named s 0 (take max_units sources.now)) }
    ensures within { IfOk result (FindsBelow (length sources.now)) }
    ensures few { IfOk result (FindsBelow max_units) }
{
    Ok(first_places(alloc, foremost(sources))?)
}

/// Those of units that aren't too many.
fn foremost(sources: &[UnitSource]) -> &[UnitSource]
    ensures { result.now ≡ take max_units sources.now }
{
    if sources.len() <= MAX_UNITS {
        return sources;
    }
    &sources[..MAX_UNITS]
}

/// Finds what breaks units and what they import, and gives the places of the units in the order of their expansion.
pub fn judge(alloc: Global, units: &mut Units, firsts: &Firsts) -> Mem<Items<u32>>
    requires same { vec_len units.old.sources ≡ vec_len units.old.heads }
    requires within { FindsBelow (vec_len units.old.heads) firsts.now }
    requires few { FindsBelow max_units firsts.now }
    requires named { (s : List ℕ) → get_by_text firsts.now s ≡ place_named s 0 (take max_units units.old.sources.items) }
    ensures judged { (spelled : LibraryName → List ℕ) → SpellsStandard spelled → (all : List Placed) → AreUnits spelled (take max_units units.old.sources.items) (take max_units all) →
        AreListed spelled all units.old.heads.items → OnOk result (AreJudged all units.old.heads.items units.new.heads.items) }
    ensures turns { (spelled : LibraryName → List ℕ) → SpellsStandard spelled → (all : List Placed) → AreUnits spelled (take max_units units.old.sources.items) (take max_units all) →
        AreListed spelled all units.old.heads.items → IfOk result (λ places. places ≡ turns all) }
    ensures forgotten { OnOk result (Forgets units.new.heads.items units.old.sources.items units.new.sources.items) }
    // Whatever the units are.
    ensures heads { OnOk result (HeadsStay units.old.heads.items units.new.heads.items) }
    ensures sources { OnOk result (SourcesStay units.old.sources.items units.new.sources.items) }
    ensures places { IfOk result (ArePlaces (vec_len units.old.heads)) }
    ensures few { IfOk result (ArePlaces max_units) }
{
    break_all(
        alloc,
        &mut units.heads,
        foremost(units.sources.as_slice()),
        firsts,
    )?;
    forget_imports(alloc, units.heads.as_slice(), &mut units.sources);
    in_order(alloc, foremost(units.sources.as_slice()))
}

/// Breaks the heads of those among these units that are to be broken, and finds what the units import.
fn break_all(
    alloc: Global,
    heads: &mut Vec<Head>,
    sources: &[UnitSource],
    firsts: &Firsts,
) -> Mem<()>
    requires few { length sources.now ≤ max_units }
    requires heads { length sources.now ≤ vec_len heads.old }
    requires within { FindsBelow (vec_len heads.old) firsts.now }
    requires firsts { FindsBelow max_units firsts.now }
    requires named { (s : List ℕ) → get_by_text firsts.now s ≡ place_named s 0 sources.now }
    ensures judged { (spelled : LibraryName → List ℕ) → SpellsStandard spelled → (all : List Placed) → AreUnits spelled sources.now (take max_units all) →
        AreListed spelled all heads.old.items → OnOk result (AreJudged all heads.old.items heads.new.items) }
    // Whatever the units are.
    ensures stay { OnOk result (HeadsStay heads.old.items heads.new.items) }
{
    let places = repeated(alloc, sources)?;
    break_at(heads, places.as_slice(), WholeFault::DefinedTwice);
    break_standard(alloc, heads)?;
    let places = on_circles(alloc, sources, firsts)?;
    break_at(heads, places.as_slice(), WholeFault::ImportCycle);
    Ok(find_imports(alloc, heads, sources, firsts)?)
}

/// The places of units of which none imports itself, each behind what it imports.
fn in_order(alloc: Global, sources: &[UnitSource]) -> Mem<Items<u32>>
    requires { length sources.now ≤ max_units }
    ensures turns { (spelled : LibraryName → List ℕ) → TellsNames spelled → (all : List Placed) → AreUnits spelled sources.now all →
        IfOk result (AreInTurn all) }
    // Whatever the units are.
    ensures places { IfOk result (ArePlaces (length sources.now)) }
{
    match order(alloc, sources) {
        Ok(places) => Ok(places),
        Err(_) => Err(Memory),
    }
}

/// Breaks a unit, unless it is broken already.
fn break_one(head: &mut Head, fault: WholeFault)
    ensures { head.new ≡ broken_by fault head.old }
{
    if head.fault.is_none() {
        head.fault = Some(fault);
    }
}

/// Breaks a unit, if it is to, and unless it is broken already.
pub fn break_if(head: &mut Head, breaks: bool, fault: WholeFault)
    ensures { head.new ≡ broken_if breaks fault head.old }
{
    if breaks {
        break_one(head, fault);
    }
}

/// Breaks those units at these places that aren't broken yet.
fn break_at(heads: &mut Vec<Head>, places: &[u32], fault: WholeFault)
    requires { (n : ℕ) → is_in n places.now ≡ true → n < vec_len heads.old }
    ensures { Breaks fault places.now heads.old.items heads.new.items }
{
    for place in places {
        break_one(&mut heads[*place as usize], fault);
    }
}

/// Breaks the libraries that have a standard name.
fn break_standard(alloc: Global, heads: &mut Vec<Head>) -> Mem<()>
    ensures { OnOk result (BreaksStandard heads.old.items heads.new.items) }
{
    for place in 0..heads.len() {
        let breaks = has_standard_name(alloc, &heads[place].name)?;
        break_if(&mut heads[place], breaks, WholeFault::DefinedTwice);
    }
    Ok(())
}

/// The places of the units that import themselves, directly or not.
fn on_circles(alloc: Global, sources: &[UnitSource], firsts: &Firsts) -> Mem<Items<u32>>
    requires few { length sources.now ≤ max_units }
    requires firsts { FindsBelow max_units firsts.now }
    requires named { (s : List ℕ) → get_by_text firsts.now s ≡ place_named s 0 sources.now }
    ensures circles { (spelled : LibraryName → List ℕ) → TellsNames spelled → (all : List Placed) → AreUnits spelled sources.now all →
        IfOk result (λ places. (n : ℕ) (p : Prepared) → slice_get (with_imports all) n ≡ Some p → is_in n places ≡ on_circle (with_imports all) p) }
    // Whatever the units are.
    ensures within { (count : ℕ) → FindsBelow count firsts.now → IfOk result (λ places. (n : ℕ) → is_in n places ≡ true → n < count) }
{
    match order(alloc, sources) {
        Ok(_) => Ok(Items::new(alloc)),
        Err(LibraryFault::Cycle(names)) => Ok(places_named(alloc, firsts, names.as_slice())?),
        Err(_) => Err(Memory),
    }
}

/// The places of the first units with these names.
fn places_named(alloc: Global, firsts: &Firsts, names: &[Text]) -> Mem<Items<u32>>
    requires { FindsBelow max_units firsts.now }
    ensures { IfOk result (λ places. places ≡ places_by (λ s. get_by_text firsts.now s) names.now) }
{
    let mut places = Items::new(alloc);
    for name in names {
        push_place(&mut places, place_for(firsts, name.as_str()))?;
    }
    Ok(places)
}

/// Adds a place, where there is one.
fn push_place(places: &mut Items<u32>, place: Option<usize>) -> Mem<()>
    requires { (n : ℕ) → place ≡ Some n → n < max_units }
    ensures { OnOk result (places.new ≡ places.old ++ option_to_list place) }
{
    match place {
        None => Ok(()),
        Some(place) => Ok(places.push(place as u32)?),
    }
}

/// Finds the places of the units that each of these imports.
fn find_imports(
    alloc: Global,
    heads: &mut Vec<Head>,
    sources: &[UnitSource],
    firsts: &Firsts,
) -> Mem<()>
    requires sources { length sources.now ≤ vec_len heads.old }
    requires firsts { FindsBelow max_units firsts.now }
    ensures { OnOk result (FindsImports (λ s. get_by_text firsts.now s) sources.now heads.old.items heads.new.items) }
{
    for (place, source) in sources.iter().enumerate() {
        heads[place].imports = imports_of(alloc, firsts, source.imports.as_slice())?;
    }
    Ok(())
}

/// The places of the units that import sets are of.
fn imports_of(alloc: Global, firsts: &Firsts, specs: &[ImportSpec]) -> Mem<Items<u32>>
    requires { FindsBelow max_units firsts.now }
    ensures { IfOk result (λ places. places ≡ imported_places (λ s. get_by_text firsts.now s) specs.now) }
{
    let mut places = Items::new(alloc);
    for spec in specs {
        push_place(&mut places, place_in(firsts, &spec.set))?;
    }
    Ok(places)
}

/// Takes the import sets of broken units away.
fn forget_imports(alloc: Global, heads: &[Head], sources: &mut Vec<UnitSource>)
    requires { vec_len sources.old ≡ length heads.now }
    ensures { Forgets heads.now sources.old.items sources.new.items }
{
    for (place, head) in heads.iter().enumerate() {
        if head.fault.is_some() {
            sources[place].imports = Items::new(alloc);
        }
    }
}
