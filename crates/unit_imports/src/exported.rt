//! What a unit exports (R7RS 5.6.1), and what is wrong in its exports.
ghost use Rattle.std.specs.Prelude.{◌≡◌, ◌<◌, ◌++◌, ◌∷◌, [], ℕ, List, length, Option, Some, OnOk, IfOk};
ghost use Rattle.std.specs.Option.{option_map};
ghost use Rattle.scheme_model.specs.Entries as model;
ghost use Rattle.scheme_model.specs.Program as program;
ghost use Rattle.scheme_model.specs.Diagnostics.{bytes_of, export_diagnostics};
ghost use Rattle.syntax_tree.specs.Names.{Names};
ghost use Rattle.syntax_tree.specs.Meant.{AreEntries};
ghost use Rattle.core_tree.specs.Units.{export_errors};
ghost use Rattle.unit_sources.specs.Exports.{IsFault};
ghost use Rattle.unit_sources.specs.Sources.{AreExports};
ghost use Rattle.unit_sources.specs.declared.fault.LibraryFault.TheVariants as faults;
ghost use Rattle.unit_imports.specs.Defined.{FindsNames};
ghost use Rattle.read_documents.specs.Findings.{all_told, errors_in};
ghost use Rattle.unit_imports.specs.EntriesMeant.{HaveMeaning};
ghost use Rattle.read_documents.specs.Places.{AreFoundIn, ArePlaces, CanPlace, spans_of};
ghost use Rattle.read_documents.specs.Readings.{Read};

use crate::entries::add_found;
use ls_base::{Items, Mem, Memory, Text};
use read_documents::findings::Finding;
use read_documents::places::Places;
use std::alloc::Global;
use syntax_tree::units::Entry;
use unit_sources::{ExportFault, ExportSpec, LibraryFault, UnitSource, exports_of};

/// What a unit exports of these names; what is wrong in its exports is added. Memory for 2^32 exports isn't there.
pub fn exports_given(
    alloc: Global,
    places: Places<'_>,
    unit: u32,
    source: &UnitSource,
    names: &[Entry],
    findings: &mut Vec<Finding>,
) -> Mem<Items<Entry>>
    requires documents { 0 < length places.documents.now }
    requires places { CanPlace places }
    ensures entries { (table : Names) → HaveMeaning table names.now → IfOk result (HaveMeaning table) }
    ensures exact { (table : Names) → (find : List ℕ → Option model.Entry) → FindsNames table names.now find → (xs : List program.ExportSpec) → AreExports source.now.exports xs →
        IfOk result (λ entries. AreEntries table entries (program.export_all find [] xs).entries) }
    ensures told { (table : Names) → (find : List ℕ → Option model.Entry) → FindsNames table names.now find → (xs : List program.ExportSpec) → AreExports source.now.exports xs →
        (reads : List Read) → (us : List program.UnitResult) → ArePlaces places.entry reads us → OnOk result (all_told findings.new.items
        ≡ all_told findings.old.items ++ export_diagnostics (bytes_of (spans_of reads) us) unit (program.export_all find [] xs).faults) }
    ensures errors { (table : Names) → (find : List ℕ → Option model.Entry) → FindsNames table names.now find → (xs : List program.ExportSpec) → AreExports source.now.exports xs →
        OnOk result (errors_in findings.new.items ≡ errors_in findings.old.items ++ export_errors (program.export_all find [] xs).faults) }
    ensures findings { AreFoundIn (length places.entry.documents.now) findings.old.items → OnOk result (AreFoundIn (length places.entry.documents.now) findings.new.items) }
{
    let specs = source.exports.as_slice();
    if specs.len() > u32::MAX as usize {
        return Err(Memory);
    }
    let exports = exports_of(alloc, source, names)?;
    for fault in exports.faults.as_slice() {
        add_fault(alloc, places, unit, specs, fault, findings)?;
    }
    Ok(exports.entries)
}

/// Adds the fault of an export, at its external name, or its declaration's first token.
fn add_fault(
    alloc: Global,
    places: Places<'_>,
    unit: u32,
    specs: &[ExportSpec],
    fault: &ExportFault,
    findings: &mut Vec<Finding>,
) -> Mem<()>
    requires documents { 0 < length places.documents.now }
    requires places { CanPlace places }
    ensures inside { AreFoundIn (length places.entry.documents.now) findings.old.items → OnOk result (AreFoundIn (length places.entry.documents.now) findings.new.items) }
    ensures told { (xs : List program.ExportSpec) → AreExports specs.now xs → (f : program.ExportFault) → IsFault xs fault.now f →
        (reads : List Read) → (us : List program.UnitResult) → ArePlaces places.entry reads us →
        OnOk result (all_told findings.new.items ≡ all_told findings.old.items ++ export_diagnostics (bytes_of (spans_of reads) us) unit (f ∷ [])) }
    ensures errors { (xs : List program.ExportSpec) → AreExports specs.now xs → (f : program.ExportFault) → IsFault xs fault.now f →
        OnOk result (errors_in findings.new.items ≡ errors_in findings.old.items ++ export_errors (f ∷ [])) }
{
    let Some((code, name)) = told(fault) else {
        return Ok(());
    };
    let Some(spec) = specs.get(fault.place as usize) else {
        return Ok(());
    };
    let at = places.at_or_form(spec.outer.occ, unit, spec.form);
    let name = name.as_str();
    Ok(add_found(alloc, findings, Some(at), spec.form, code, name)?)
}

/// The code of a fault, and what it names.
fn told(fault: &ExportFault) -> Option<(u32, &Text)>
    ensures defined { (s : List ℕ) → fault.now.fault ≡ faults.NotDefined s → option_map {U = ℕ × List ℕ} (λ t. (t.0, t.1.now)) result ≡ Some (64, s) }
    ensures same { (s : List ℕ) → fault.now.fault ≡ faults.SameExport s → option_map {U = ℕ × List ℕ} (λ t. (t.0, t.1.now)) result ≡ Some (65, s) }
{
    match &fault.fault {
        LibraryFault::NotDefined(name) => Some((64, name)),
        LibraryFault::SameExport(name) => Some((65, name)),
        LibraryFault::BadDeclaration { .. } => None,
        LibraryFault::TooManyTokens => None,
        LibraryFault::Cycle(_) => None,
        LibraryFault::SameLibrary => None,
        LibraryFault::Memory => None,
    }
}
