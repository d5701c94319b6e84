//! What a unit comes to, by what it is given and what its forms came to; and what a unit comes to that is broken as a whole.
ghost use Rattle.std.specs.Prelude.{◌≡◌, ℕ, ◌<◌, List, [], All, length, map, reverse, Some, None, IfOk, OnOk, ◌&&◌, ◌==◌, if◌then◌else◌};
ghost use Rattle.scheme_model.specs.Entries.{Entry as ModelEntry};
ghost use Rattle.scheme_model.specs.Diagnostics.{bytes_of, unbound_diagnostics};
ghost use Rattle.scheme_model.specs.Live.{unit_leaves};
ghost use Rattle.scheme_model.specs.IncludedUnits.{Placed};
ghost use Rattle.scheme_model.specs.Program.{Prepared, Program, SetResult, UnitResult, WholeFault as Whole, forms_at_work, unit_result, result_at, with_refused};
ghost use Rattle.scheme_model.specs.Requirements.{LibraryName};
ghost use Rattle.scheme_model.specs.UnitExpansion.{Formed};
ghost use Rattle.syntax_tree.specs.Meant.{AreEntries};
ghost use Rattle.syntax_tree.specs.Names.{KeepsNames};
ghost use Rattle.syntax_tree.specs.declared.trees.Work.{Work as AnyWork};
ghost use Rattle.core_tree.specs.Units.{IsBlank, FormsStand, AreDefinitions, definitions_from, defined_by};
ghost use Rattle.read_documents.specs.Broken.{told};
ghost use Rattle.unit_results.specs.Came.{CameTo};
ghost use Rattle.read_documents.specs.UnitSources.{IsSourceOf};
ghost use Rattle.program_leaves.specs.Formed.{IsFormed};
ghost use Rattle.program_leaves.specs.Formed.{AreFormed};
ghost use Rattle.unit_imports.specs.EntriesMeant.{HaveMeaning, ExportsMean};
ghost use Rattle.unit_imports.specs.Whole.{with_forms};
ghost use Rattle.read_documents.specs.Findings.{Adds};
ghost use Rattle.read_documents.specs.Places.{AreFoundIn, ArePlaces as ArePlacesOf, CanPlace, spans_of};
ghost use Rattle.read_documents.specs.Readings.{Read};
ghost use Rattle.unit_imports.specs.SetsGiven.{AreLibraries, ImportsAs};
ghost use Rattle.program_findings.specs.StandIn.{StandIn};
ghost use Rattle.unit_results.specs.UnitsFound.{AreSetsFound, LostIn, in_the_end, no_import_diagnostics};
ghost use Rattle.read_documents.specs.UnitFindings.{IsFoundOf};

use core_tree::traces::blank_trace;
use core_tree::units::UnitForm;
use ls_base::{Items, Mem};
use program_findings::diagnosing::{add_faults, add_lost, add_unbound, whole_finding};
use read_documents::findings::{Finding, none_placed};
use read_documents::heads::WholeFault;
use read_documents::places::Places;
use std::alloc::Global;
use syntax_tree::symbols::Symbols;
use syntax_tree::trees::Work;
use unit_imports::defined::{add_hiding, definitions, names_of};
use unit_imports::entries::{Given, Libraries, imports_nothing};
use unit_imports::expanded::{Expanded, Rest};
use unit_imports::exported::exports_given;
use unit_imports::names::names_used;
use unit_imports::seconds::seconds_in;
use unit_sources::{LostString, UnitSource};

/// What a unit came to but for its forms, by what it imports and what these expanded to. What is found wrong stands in this order:
/// sets, strings that mean no text, exports, forms, definitions that hide, unbound names, no import.
pub fn finished(
    alloc: Global,
    work: &mut Work,
    places: Places<'_>,
    libraries: Libraries<'_>,
    unit: u32,
    source: &UnitSource,
    given: Given,
    forms: &[&UnitForm],
) -> Mem<Rest>
    requires forms { AreFormed work.old unit (map (λ form. form.now) forms.now) }
    requires documents { 0 < length places.documents.now }
    requires places { CanPlace places }
    requires exports { ExportsMean work.old.symbols libraries.expanded.now }
    requires entries { HaveMeaning work.old.symbols given.joined.entries.items }
    requires findings { AreFoundIn (length places.documents.now) given.findings.items }
    ensures trees { work.new.trees ≡ work.old.trees }
    ensures names { KeepsNames work.old.symbols work.new.symbols }
    ensures findings { IfOk result (λ rest. AreFoundIn (length places.entry.documents.now) rest.findings.items) }
    ensures exports { IfOk result (λ rest. HaveMeaning work.new.symbols rest.exports) }
    // They are what the definition has of the unit, where forms stand for what it has of them.
    ensures came { (spelled : LibraryName → List ℕ) (us : List Placed) (q : Program) (p : Prepared) (given_entries : List ModelEntry × List SetResult) (fs : List Formed) → p.number ≡ unit → IsSourceOf spelled p None source.now →
        AreLibraries work.old.symbols libraries.entry spelled us q.units → AreEntries work.old.symbols given.joined.entries.items given_entries.0 →
        length forms.now ≡ length p.forms → FormsStand work.old unit 0 (map (λ form. form.now) forms.now) (with_refused p.number 0 (forms_at_work p) fs) → AreDefinitions work.old.symbols (reverse (definitions_from 0 (map (λ form. form.now) forms.now))) (defined_by unit q.table) →
        IfOk result (λ rest. CameTo us q work.new (with_forms rest (map (λ form. form.now) forms.now)) (unit_result p given_entries q.table (Some fs))) }
    // What is found is what the definition has of the unit, where the program comes to have these units.
    ensures finds { (spelled : LibraryName → List ℕ) (q : Program) (p : Prepared) (given_entries : List ModelEntry × List SetResult) (fs : List Formed) → p.number ≡ unit → IsSourceOf spelled p None source.now →
        AreEntries work.old.symbols given.joined.entries.items given_entries.0 → FormsStand work.old unit 0 (map (λ form. form.now) forms.now) (with_refused p.number 0 (forms_at_work p) fs) → AreDefinitions work.old.symbols (reverse (definitions_from 0 (map (λ form. form.now) forms.now))) (defined_by unit q.table) →
        (reads : List Read) (ends : List UnitResult) (r : UnitResult) → ArePlacesOf places.entry reads ends → result_at ends unit ≡ Some r → r.unit ≡ p → AreSetsFound reads ends p given_entries.1 given.findings.items →
        LostIn (length places.entry.documents.now) p.placed.source.lost →
        IfOk result (λ rest. IsFoundOf reads (in_the_end ends q) (unit_result p given_entries q.table (Some fs)) rest.findings.items) }
{
    let Given {
        joined,
        mut findings,
    } = given;
    let sets_are_good = none_placed(findings.as_slice());
    let defined = definitions(alloc, forms)?;
    let names = names_of(alloc, &work.symbols, unit, defined.as_slice(), &joined)?;
    let used = names_used(alloc, work, libraries, unit, source, names.as_slice())?;
    let seconds = seconds_in(alloc, source.imports.as_slice())?;
    let symbols = &work.symbols;
    add_lost(alloc, places, source.lost.as_slice(), &mut findings)?;
    let exports = exports_given(alloc, places, unit, source, names.as_slice(), &mut findings)?;
    add_faults(
        alloc,
        symbols,
        places,
        unit,
        source.forms.as_slice(),
        forms,
        &mut findings,
    )?;
    add_hiding(
        alloc,
        symbols,
        places,
        unit,
        forms,
        defined.as_slice(),
        &joined,
        &mut findings,
    )?;
    let are_found = are_told(sets_are_good, source.lost.as_slice());
    add_unbound_if(alloc, symbols, places, forms, are_found, &mut findings)?;
    add_no_import(alloc, places, unit, source, &mut findings)?;
    Ok(Rest {
        entries: joined.entries,
        names: used,
        seconds,
        exports,
        findings,
    })
}

/// References to forms, in order.
pub fn references(alloc: Global, forms: &[UnitForm]) -> Mem<Vec<&UnitForm>>
    ensures { IfOk result (λ all. map (λ form. form.now) all.items ≡ forms.now) }
{
    let mut all = Vec::new(alloc);
    for form in forms {
        all.push(form)?;
    }
    Ok(all)
}

/// Whether unbound names are told: only where no set of the unit is wrong, and each string that includes means a text.
fn are_told(sets_are_good: bool, lost: &[LostString]) -> bool
    ensures { result ≡ (sets_are_good && (length lost.now == 0)) }
{
    sets_are_good && lost.is_empty()
}

/// Adds the references and assignments of forms that mean nothing, if they are to be found.
fn add_unbound_if(
    alloc: Global,
    symbols: &Symbols,
    places: Places<'_>,
    forms: &[&UnitForm],
    are_found: bool,
    findings: &mut Vec<Finding>,
) -> Mem<()>
    requires forms { StandIn symbols.now (map (λ form. form.now) forms.now) }
    requires documents { 0 < length places.documents.now }
    requires places { CanPlace places }
    ensures inside { AreFoundIn (length places.entry.documents.now) findings.old.items → OnOk result (AreFoundIn (length places.entry.documents.now) findings.new.items) }
    ensures exact { (rs : List Read) (us : List UnitResult) (work : AnyWork) (unit : ℕ) (fs : List Formed) → ArePlacesOf places.entry rs us → KeepsNames work.symbols symbols.now → FormsStand work unit 0 (map (λ form. form.now) forms.now) fs →
        OnOk result (Adds findings.old.items findings.new.items (if are_found then unbound_diagnostics (bytes_of (spans_of rs) us) (unit_leaves fs) else []) []) }
{
    if are_found {
        add_unbound(alloc, symbols, places, forms, findings)?;
    }
    Ok(())
}

/// Adds that a unit imports nothing, if it does.
fn add_no_import(
    alloc: Global,
    places: Places<'_>,
    unit: u32,
    source: &UnitSource,
    findings: &mut Vec<Finding>,
) -> Mem<()>
    requires documents { 0 < length places.documents.now }
    requires places { CanPlace places }
    ensures inside { AreFoundIn (length places.entry.documents.now) findings.old.items → OnOk result (AreFoundIn (length places.entry.documents.now) findings.new.items) }
    ensures exact { (spelled : LibraryName → List ℕ) (rs : List Read) (us : List UnitResult) (r : UnitResult) → ArePlacesOf places.entry rs us → result_at us unit ≡ Some r → ImportsAs spelled source.now r.unit →
        OnOk result (Adds findings.old.items findings.new.items (no_import_diagnostics (spans_of rs) r.unit) []) }
{
    if imports_nothing(source) {
        let start = places.start(unit);
        let finding = Finding::new(alloc, Some(start), 0, 104, "")?;
        findings.push(finding)?;
    }
    Ok(())
}

/// What a unit comes to that is broken as a whole.
pub fn broken(
    alloc: Global,
    places: Places<'_>,
    unit: u32,
    fault: WholeFault,
    count: usize,
) -> Mem<Expanded>
    requires documents { 0 < length places.documents.now }
    requires places { CanPlace places }
    ensures forms { IfOk result (λ came. All IsBlank came.forms) }
    ensures formed { (work : AnyWork) → IfOk result (λ came. IsFormed work unit came.forms) }
    ensures count { IfOk result (λ came. length came.forms ≡ count) }
    ensures names { IfOk result (λ came. came.names ≡ []) }
    ensures seconds { IfOk result (λ came. came.seconds ≡ []) }
    ensures entries { IfOk result (λ came. came.entries.items ≡ []) }
    ensures exports { IfOk result (λ came. came.exports ≡ []) }
    ensures findings { IfOk result (λ came. AreFoundIn (length places.entry.documents.now) came.findings.items) }
    ensures finds { (rs : List Read) (p : Program) (r : UnitResult) (f : Whole) → ArePlacesOf places.entry rs p.units → result_at p.units unit ≡ Some r → r.fault ≡ Some f → fault ≡ told f →
        IfOk result (λ came. IsFoundOf rs p r came.findings.items) }
{
    let mut findings = Vec::new(alloc);
    let finding = whole_finding(alloc, places, unit, fault)?;
    findings.push(finding)?;
    Ok(Expanded {
        entries: Vec::new(alloc),
        forms: blank_forms(alloc, count)?,
        names: Items::new(alloc),
        seconds: Items::new(alloc),
        exports: Items::new(alloc),
        findings,
    })
}

/// Forms that aren't expanded.
pub fn blank_forms(alloc: Global, count: usize) -> Mem<Items<UnitForm>>
    ensures blank { IfOk result (λ forms. All IsBlank forms) }
    ensures count { IfOk result (λ forms. length forms ≡ count) }
{
    let mut forms = Items::new(alloc);
    for _place in 0..count {
        forms.push(UnitForm {
            items: Items::new(alloc),
            trace: blank_trace(alloc),
            fault: None,
        })?;
    }
    Ok(forms)
}
