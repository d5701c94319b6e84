//! What a unit imports (R7RS 5.2, 5.6.1), and what is wrong in its import sets.
#![tactic(auto, using(crate::proofs::MeaningLaws::names_itself, crate::proofs::MeaningLaws::names_on, crate::proofs::MeaningLaws::mean_kept, crate::proofs::ImportLaws::exports_kept, crate::proofs::ImportLaws::groups_kept))]

ghost use Rattle.std.specs.Prelude.{◌≡◌, ◌<◌, ◌&&◌, ◌++◌, ◌∷◌, ℕ, List, [], map, not, reverse, length, Option, Some, Result, OnOk, IfOk, IfSome};
ghost use Rattle.std.specs.List.{list_any, zip};
ghost use Rattle.std.specs.Option.{option_map};
ghost use Rattle.std.specs.BTreeMap.{get_by_text};
ghost use Rattle.scheme_model.specs.Requirements.{LibraryName};
ghost use Rattle.scheme_model.specs.StandardLibraries.{standard};
ghost use Rattle.scheme_model.specs.Entries as model;
ghost use Rattle.scheme_model.specs.IncludedUnits.{Placed};
ghost use Rattle.scheme_model.specs.Program as program;
ghost use Rattle.scheme_model.specs.Program.{standard_entry, is_import, is_program, import_all, specs_from, specs_in, unit_entries};
ghost use Rattle.scheme_model.specs.Diagnostics.{Bytes, document_of, bytes_of, bytes_or, clash_diagnostics, import_fault, set_found, set_diagnostics};
ghost use Rattle.syntax_tree.specs.Names.{Names, KeepsNames};
ghost use Rattle.syntax_tree.specs.Meant.{AreEntries, IsEntry};
ghost use Rattle.core_tree.specs.Names.{AllMatch};
ghost use Rattle.core_tree.specs.Units.{import_code, kind_as, set_errors, set_forms};
ghost use Rattle.unit_sources.specs.UnitsRead.{form_of, forms_of};
ghost use Rattle.import_sets.specs.Sets.{FailsAs, IsSet, IsSetOf, TellsApart};
ghost use Rattle.unit_imports.specs.Joining.{AreApart, GroupsMean, GroupsStand};
ghost use Rattle.unit_imports.specs.EntriesMeant.{EachOnce, ExportsMean, HaveMeaning};
ghost use Rattle.read_documents.specs.Findings.{all_told, error_by, errors_in, told_at};
ghost use Rattle.read_documents.specs.Places.{AreFoundIn, ArePlaces, IsAtIn, CanPlace, bytes_at, number_at, spans_of};
ghost use Rattle.read_documents.specs.Readings.{Read, span_seen};
ghost use Rattle.unit_imports.specs.Imports.{SetMeans};
ghost use Rattle.unit_imports.specs.SetsGiven.{AreEntriesIf, AreLibraries, ComesTo, ImportsAs, IsSetFault, exports_at, set_exports, with_set};
ghost use Rattle.read_documents.specs.UnitSources.{IsSpec};
ghost use Rattle.scheme_model.specs.DiagnosticTexts.{worded};

use crate::expanded::Expanded;
use crate::joining::{Joined, join_all, origin};
use base_library::standard;
use datum_reader::Datum;
use datum_reader::heads::behind_first;
use import_sets::copy::copy_of_entries;
use import_sets::firsts::place_for;
use import_sets::gather::Gathering;
use import_sets::{ImportFault, ImportSet, entries_of};
use ls_base::{Items, Mem, Memory, Span, Text};
use read_documents::findings::{At, Finding};
use read_documents::form_numbers::number_of;
use read_documents::places::Places;
use read_documents::sets::{Firsts, library_in};
use scheme_model::Occ;
use std::alloc::Global;
use syntax_tree::meaning::Meaning;
use syntax_tree::symbols::Symbols;
use syntax_tree::trees::Work;
use syntax_tree::units::{Entry, UnitKind};
use unit_sources::declared::{has_import, is_import};
use unit_sources::{ImportSpec, UnitForm, UnitSource};

/// The libraries that were expanded: by a name the place of the first unit that has it, and by its place what it came to.
#[derive(Clone, Copy)]
pub struct Libraries<'a> {
    pub firsts: &'a Firsts,
    pub expanded: &'a [Option<Expanded>],
}

/// What a unit imports, and what is wrong in its sets.
#[derive(Drop)]
pub struct Given {
    pub joined: Joined,
    pub findings: Vec<Finding>,
}

/// A set with its document and its form.
#[derive(Clone, Copy)]
struct SetAt<'a> {
    spec: &'a ImportSpec,
    document: usize,
    form: u32,
}

impl SetAt<'_> {
    /// Bytes of the set's document.
    fn at(&self, span: Span) -> At
        ensures { result ≡ record { document = self.now.document; span = span } }
    {
        At {
            document: self.document,
            span,
        }
    }
}

/// What an import set comes to: entries, nothing where its library isn't known or is broken, or its fault.
#[derive(Drop)]
enum SetGives {
    Entries(Items<Entry>),
    Unknown,
    Faulty(ImportFault),
}

/// Whether a unit is a program without an import, which has `(scheme base)`.
pub fn imports_nothing(source: &UnitSource) -> bool
    ensures { result ≡ (is_program (kind_as source.now.kind) && not (list_any is_import (forms_of source.now.forms))) }
{
    source.kind == UnitKind::Program && !has_import(source.forms.as_slice())
}

/// What a unit imports.
pub fn given_to(
    alloc: Global,
    work: &mut Work,
    places: Places<'_>,
    libraries: Libraries<'_>,
    source: &UnitSource,
) -> Mem<Given>
    requires documents { 0 < length places.documents.now }
    requires places { CanPlace places }
    requires libraries { ExportsMean work.old.symbols libraries.expanded.now }
    ensures trees { work.new.trees ≡ work.old.trees }
    ensures names { KeepsNames work.old.symbols work.new.symbols }
    ensures entries { IfOk result (λ given. HaveMeaning work.new.symbols given.joined.entries.items) }
    ensures once { IfOk result (λ given. EachOnce given.joined.entries.items) }
    ensures findings { IfOk result (λ given. AreFoundIn (length places.entry.documents.now) given.findings.items) }
    ensures exact { (spelled : LibraryName → List ℕ) → (all : List Placed) → (rs : List program.UnitResult) →
        AreLibraries work.old.symbols libraries.entry spelled all rs → (p : program.Prepared) → ImportsAs spelled source.now p →
        IfOk result (λ given. AreEntries work.new.symbols given.joined.entries.items (unit_entries all rs p).0) }
    ensures told { (spelled : LibraryName → List ℕ) → (all : List Placed) → (rs : List program.UnitResult) →
        AreLibraries work.old.symbols libraries.entry spelled all rs → (p : program.Prepared) → ImportsAs spelled source.now p →
        (reads : List Read) → (us : List program.UnitResult) → ArePlaces places.entry reads us →
        IfOk result (λ given. all_told given.findings.items ≡ set_diagnostics (bytes_of (spans_of reads) us) (document_of us) p.specs (unit_entries all rs p).1) }
    ensures errors { (spelled : LibraryName → List ℕ) → (all : List Placed) → (rs : List program.UnitResult) →
        AreLibraries work.old.symbols libraries.entry spelled all rs → (p : program.Prepared) → ImportsAs spelled source.now p → p.forms ≡ forms_of source.now.forms → p.specs ≡ specs_from p.number 0 p.forms →
        IfOk result (λ given. errors_in given.findings.items ≡ set_errors (zip (set_forms p.number 0 p.forms) (unit_entries all rs p).1)) }
{
    let mut findings = Vec::new(alloc);
    let gathering = gathered(
        alloc,
        &mut work.symbols,
        places,
        libraries,
        source,
        &mut findings,
    )?;
    Ok(Given {
        joined: Joined::of(alloc, gathering)?,
        findings,
    })
}

/// What `(scheme base)` or the import sets of a unit give; what is wrong in them is added.
fn gathered(
    alloc: Global,
    symbols: &mut Symbols,
    places: Places<'_>,
    libraries: Libraries<'_>,
    source: &UnitSource,
    findings: &mut Vec<Finding>,
) -> Mem<Gathering>
    requires documents { 0 < length places.documents.now }
    requires places { CanPlace places }
    requires libraries { ExportsMean symbols.old libraries.expanded.now }
    requires findings { AreFoundIn (length places.documents.now) findings.old.items }
    ensures names { KeepsNames symbols.old symbols.new }
    ensures means { IfOk result (λ g. GroupsMean symbols.new g.groups.items) }
    ensures apart { IfOk result (λ g. AreApart g.groups.items) }
    ensures findings { OnOk result (AreFoundIn (length places.entry.documents.now) findings.new.items) }
    ensures exact { (spelled : LibraryName → List ℕ) → (all : List Placed) → (rs : List program.UnitResult) →
        AreLibraries symbols.old libraries.entry spelled all rs → (p : program.Prepared) → ImportsAs spelled source.now p →
        IfOk result (λ g. GroupsStand symbols.new g.groups.items (unit_entries all rs p).0) }
    ensures told { (spelled : LibraryName → List ℕ) → (all : List Placed) → (rs : List program.UnitResult) →
        AreLibraries symbols.old libraries.entry spelled all rs → (p : program.Prepared) → ImportsAs spelled source.now p →
        (reads : List Read) → (us : List program.UnitResult) → ArePlaces places.entry reads us →
        OnOk result (all_told findings.new.items
        ≡ all_told findings.old.items ++ set_diagnostics (bytes_of (spans_of reads) us) (document_of us) p.specs (unit_entries all rs p).1) }
    ensures errors { (spelled : LibraryName → List ℕ) → (all : List Placed) → (rs : List program.UnitResult) →
        AreLibraries symbols.old libraries.entry spelled all rs → (p : program.Prepared) → ImportsAs spelled source.now p → p.forms ≡ forms_of source.now.forms → p.specs ≡ specs_from p.number 0 p.forms →
        OnOk result (errors_in findings.new.items ≡ errors_in findings.old.items ++ set_errors (zip (set_forms p.number 0 p.forms) (unit_entries all rs p).1)) }
{
    if imports_nothing(source) {
        return Ok(base_given(alloc, symbols)?);
    }
    Ok(sets_given(alloc, symbols, places, libraries, source, findings)?)
}

/// What `(scheme base)` gives.
fn base_given(alloc: Global, symbols: &mut Symbols) -> Mem<Gathering>
    ensures names { KeepsNames symbols.old symbols.new }
    ensures exact { IfOk result (λ g. GroupsStand symbols.new g.groups.items program.base_entries) }
    ensures means { IfOk result (λ g. GroupsMean symbols.new g.groups.items) }
    ensures apart { IfOk result (λ g. AreApart g.groups.items) }
{
    let gathering = Gathering::new(alloc);
    match standard(alloc, "(scheme base)")? {
        None => Ok(gathering),
        Some(names) => {
            let entries = standard_entries(alloc, symbols, names.as_slice())?;
            symbols.told_apart();
            Ok(join_all(alloc, gathering, entries)?)
        }
    }
}

/// What the import sets of a unit give; what is wrong in them is added.
fn sets_given(
    alloc: Global,
    symbols: &mut Symbols,
    places: Places<'_>,
    libraries: Libraries<'_>,
    source: &UnitSource,
    findings: &mut Vec<Finding>,
) -> Mem<Gathering>
    requires documents { 0 < length places.documents.now }
    requires places { CanPlace places }
    requires libraries { ExportsMean symbols.old libraries.expanded.now }
    requires findings { AreFoundIn (length places.documents.now) findings.old.items }
    ensures names { KeepsNames symbols.old symbols.new }
    ensures means { IfOk result (λ g. GroupsMean symbols.new g.groups.items) }
    ensures apart { IfOk result (λ g. AreApart g.groups.items) }
    ensures findings { OnOk result (AreFoundIn (length places.entry.documents.now) findings.new.items) }
    ensures exact { (spelled : LibraryName → List ℕ) → (all : List Placed) → (rs : List program.UnitResult) →
        AreLibraries symbols.old libraries.entry spelled all rs → (ss : List program.ImportSpec) → AllMatch (IsSpec spelled) source.now.imports ss →
        IfOk result (λ g. GroupsStand symbols.new g.groups.items (import_all all rs [] ss).0) }
    ensures told { (spelled : LibraryName → List ℕ) → (all : List Placed) → (rs : List program.UnitResult) →
        AreLibraries symbols.old libraries.entry spelled all rs → (ss : List program.ImportSpec) → AllMatch (IsSpec spelled) source.now.imports ss →
        (reads : List Read) → (us : List program.UnitResult) → ArePlaces places.entry reads us →
        OnOk result (all_told findings.new.items
        ≡ all_told findings.old.items ++ set_diagnostics (bytes_of (spans_of reads) us) (document_of us) ss (import_all all rs [] ss).1) }
    ensures errors { (spelled : LibraryName → List ℕ) → (all : List Placed) → (rs : List program.UnitResult) →
        AreLibraries symbols.old libraries.entry spelled all rs → (ss : List program.ImportSpec) → AllMatch (IsSpec spelled) source.now.imports ss → (unit : ℕ) → ss ≡ specs_from unit 0 (forms_of source.now.forms) →
        OnOk result (errors_in findings.new.items ≡ errors_in findings.old.items ++ set_errors (zip (set_forms unit 0 (forms_of source.now.forms)) (import_all all rs [] ss).1)) }
{
    let mut gathering = Gathering::new(alloc);
    let forms = set_forms(alloc, source.forms.as_slice())?;
    let specs = source.imports.as_slice();
    for (place, spec) in specs.iter().enumerate() {
        let document = places.document_of(spec.unit);
        let form = form_in(forms.as_slice(), place);
        let set = SetAt {
            spec,
            document,
            form,
        };
        gathering = with_set(alloc, symbols, places, libraries, set, gathering, findings)?;
    }
    Ok(gathering)
}

/// With what a set gives; what is wrong in it is added.
fn with_set(
    alloc: Global,
    symbols: &mut Symbols,
    places: Places<'_>,
    libraries: Libraries<'_>,
    set: SetAt<'_>,
    gathering: Gathering,
    findings: &mut Vec<Finding>,
) -> Mem<Gathering>
    requires document { set.document < length places.documents.now }
    requires places { CanPlace places }
    requires libraries { ExportsMean symbols.old libraries.expanded.now }
    requires means { GroupsMean symbols.old gathering.groups.items }
    requires apart { AreApart gathering.groups.items }
    requires clashes { gathering.clashes.items ≡ [] }
    requires findings { AreFoundIn (length places.documents.now) findings.old.items }
    ensures names { KeepsNames symbols.old symbols.new }
    ensures means { IfOk result (λ g. GroupsMean symbols.new g.groups.items) }
    ensures apart { IfOk result (λ g. AreApart g.groups.items) }
    ensures findings { OnOk result (AreFoundIn (length places.entry.documents.now) findings.new.items) }
    ensures clashes { IfOk result (λ g. g.clashes.items ≡ []) }
    ensures exact { (spelled : LibraryName → List ℕ) → (all : List Placed) → (rs : List program.UnitResult) →
        AreLibraries symbols.old libraries.entry spelled all rs → (s : program.ImportSpec) → IsSpec spelled set.entry.spec.now s → (es : List model.Entry) →
        GroupsStand symbols.old gathering.groups.items es → IfOk result (λ g. GroupsStand symbols.new g.groups.items (with_set all rs s.set es).0) }
    ensures told { (spelled : LibraryName → List ℕ) → (all : List Placed) → (rs : List program.UnitResult) →
        AreLibraries symbols.old libraries.entry spelled all rs → (s : program.ImportSpec) → IsSpec spelled set.entry.spec.now s → (es : List model.Entry) →
        GroupsStand symbols.old gathering.groups.items es → (reads : List Read) → (us : List program.UnitResult) → ArePlaces places.entry reads us →
        OnOk result (all_told findings.new.items
        ≡ all_told findings.old.items ++ set_found (bytes_of (spans_of reads) us) set.entry.document s (with_set all rs s.set es).1) }
    ensures errors { (spelled : LibraryName → List ℕ) → (all : List Placed) → (rs : List program.UnitResult) →
        AreLibraries symbols.old libraries.entry spelled all rs → (s : program.ImportSpec) → IsSpec spelled set.entry.spec.now s → (es : List model.Entry) →
        GroupsStand symbols.old gathering.groups.items es → OnOk result (errors_in findings.new.items ≡ errors_in findings.old.items ++ set_errors ((set.entry.form, (with_set all rs s.set es).1) ∷ [])) }
{
    match of_set(alloc, symbols, libraries, &set.spec.set)? {
        SetGives::Entries(entries) => {
            symbols.told_apart();
            Ok(with_entries(alloc, gathering, findings, set, entries)?)
        }
        SetGives::Unknown => {
            add_unknown(alloc, findings, set)?;
            Ok(gathering)
        }
        SetGives::Faulty(fault) => {
            add_fault(alloc, findings, places, set, fault)?;
            Ok(gathering)
        }
    }
}

/// For each import set in forms the number of its form.
fn set_forms(alloc: Global, forms: &[UnitForm]) -> Mem<Vec<u32>>
    ensures { (unit : ℕ) → IfOk result (λ all. all.items ≡ set_forms unit 0 (forms_of forms.now)) }
{
    let mut all = Vec::new(alloc);
    for (place, form) in forms.iter().enumerate() {
        let number = number_of(place)?;
        add_set_forms(&mut all, number, form)?;
    }
    Ok(all)
}

/// Adds the number of a form for each import set in it.
fn add_set_forms(all: &mut Vec<u32>, number: u32, form: &UnitForm) -> Mem<()>
    ensures { (unit : ℕ) → OnOk result (all.new.items ≡ all.old.items ++ map (λ s. number) (specs_in unit number (form_of form.now))) }
{
    if is_import(form) {
        return Ok(add_for_each(all, number, behind_first(&form.datum))?);
    }
    Ok(())
}

/// Adds a number for each of some data.
fn add_for_each(all: &mut Vec<u32>, number: u32, sets: &[Datum]) -> Mem<()>
    ensures { OnOk result (all.new.items ≡ all.old.items ++ map (λ s. number) sets.now) }
{
    for _set in sets {
        all.push(number)?;
    }
    Ok(())
}

/// The form at a place, and the first where there is none.
fn form_in(forms: &[u32], place: usize) -> u32
    ensures { result ≡ number_at forms.now place }
{
    match forms.get(place) {
        Some(form) => *form,
        None => 0,
    }
}

/// What a standard library gives.
fn standard_entries(alloc: Global, symbols: &mut Symbols, names: &[Text]) -> Mem<Items<Entry>>
    ensures names { KeepsNames symbols.old symbols.new }
    ensures entries { IfOk result (λ es. AreEntries symbols.new es (map standard_entry names.now)) }
{
    let mut entries = Items::new(alloc);
    for name in names {
        entries.push(standard_entry(alloc, symbols, name.as_str())?)?;
    }
    Ok(entries)
}

/// What a standard library gives under a name.
fn standard_entry(alloc: Global, symbols: &mut Symbols, name: &str) -> Mem<Entry>
    ensures names { KeepsNames symbols.old symbols.new }
    ensures entry { IfOk result (λ e. IsEntry symbols.new e (standard_entry name.now)) }
{
    let symbol = symbols.symbol(name)?;
    Ok(Entry {
        name: Text::of(alloc, name)?,
        meaning: Meaning::Standard(symbol),
        origins: origin(alloc, None)?,
    })
}

/// What an import set comes to.
fn of_set(
    alloc: Global,
    symbols: &mut Symbols,
    libraries: Libraries<'_>,
    set: &ImportSet,
) -> Mem<SetGives>
    requires { ExportsMean symbols.old libraries.expanded.now }
    ensures names { KeepsNames symbols.old symbols.new }
    ensures means { IfOk result (SetMeans symbols.new) }
    ensures exact { (spelled : LibraryName → List ℕ) → (all : List Placed) → (rs : List program.UnitResult) →
        AreLibraries symbols.old libraries.entry spelled all rs → (s : model.ImportSet) → IsSetOf (λ t n. t ≡ spelled n) set.now s →
        IfOk result (λ gives. ComesTo symbols.new gives (with_set all rs s)) }
{
    let Some(name) = library_in(set) else {
        return Ok(SetGives::Faulty(ImportFault::BadSet));
    };
    match named_entries(alloc, symbols, libraries, name)? {
        None => Ok(SetGives::Unknown),
        Some(exports) => {
            symbols.told_apart();
            Ok(chosen(alloc, symbols, set, exports.as_slice())?)
        }
    }
}

/// What a set gives of what its library exports.
fn chosen(alloc: Global, symbols: &Symbols, set: &ImportSet, exports: &[Entry]) -> Mem<SetGives>
    requires { HaveMeaning symbols.now exports.now }
    ensures means { IfOk result (SetMeans symbols.now) }
    ensures exact { (s : model.ImportSet) → IsSet set.now s → (es : List model.Entry) → AreEntries symbols.now exports.now es →
        IfOk result (λ gives. ComesTo symbols.now gives (λ before. program.after_set before (model.entries_of s es))) }
{
    symbols.told_apart();
    match entries_of(alloc, set, exports) {
        Ok(entries) => Ok(SetGives::Entries(entries)),
        Err(fault) => faulty(fault),
    }
}

/// A set's fault, unless memory ran out.
fn faulty(fault: ImportFault) -> Mem<SetGives>
    ensures means { (names : Names) → IfOk result (SetMeans names) }
    ensures exact { (names : Names) → (r : Result (List model.Entry) model.ImportFault) → FailsAs fault r →
        IfOk result (λ gives. ComesTo names gives (λ before. program.after_set before r)) }
{
    match fault {
        ImportFault::Memory => Err(Memory),
        _ => Ok(SetGives::Faulty(fault)),
    }
}

/// What the library of a set exports. `None` where the set has no shape, or its library isn't known or is broken.
pub fn library_entries(
    alloc: Global,
    symbols: &mut Symbols,
    libraries: Libraries<'_>,
    set: &ImportSet,
) -> Mem<Option<Items<Entry>>>
    requires { ExportsMean symbols.old libraries.expanded.now }
    ensures names { KeepsNames symbols.old symbols.new }
    ensures means { IfOk result (λ exports. IfSome exports (HaveMeaning symbols.new)) }
    ensures exact { (spelled : LibraryName → List ℕ) → (all : List Placed) → (rs : List program.UnitResult) →
        AreLibraries symbols.old libraries.entry spelled all rs → (s : model.ImportSet) → IsSetOf (λ t n. t ≡ spelled n) set.now s →
        IfOk result (λ exports. AreEntriesIf symbols.new exports (set_exports all rs (model.library_in s))) }
{
    let Some(name) = library_in(set) else {
        return Ok(None);
    };
    Ok(named_entries(alloc, symbols, libraries, name)?)
}

/// What the library with a name exports. `None` where it isn't known or is broken.
fn named_entries(
    alloc: Global,
    symbols: &mut Symbols,
    libraries: Libraries<'_>,
    name: &str,
) -> Mem<Option<Items<Entry>>>
    requires { ExportsMean symbols.old libraries.expanded.now }
    ensures names { KeepsNames symbols.old symbols.new }
    ensures means { IfOk result (λ exports. IfSome exports (HaveMeaning symbols.new)) }
    ensures exact { (spelled : LibraryName → List ℕ) → (all : List Placed) → (rs : List program.UnitResult) →
        AreLibraries symbols.old libraries.entry spelled all rs → (n : LibraryName) → name.now ≡ spelled n →
        IfOk result (λ exports. AreEntriesIf symbols.new exports (program.library_exports all rs n (standard n))) }
{
    match standard(alloc, name)? {
        Some(names) => {
            let entries = standard_entries(alloc, symbols, names.as_slice())?;
            Ok(Some(entries))
        }
        None => match exports_named(libraries, name) {
            None => Ok(None),
            Some(exports) => Ok(Some(copy_of_entries(alloc, exports)?)),
        },
    }
}

/// What the library with a name exports, where there is one that isn't broken.
fn exports_named<'a>(libraries: Libraries<'a>, name: &str) -> Option<&'a [Entry]>
    ensures means { (names : Names) → ExportsMean names libraries.entry.expanded.now → IfSome result (λ exports. HaveMeaning names exports.now) }
    ensures exact { option_map (λ exports. exports.now) result ≡ exports_at libraries.entry.expanded.now (get_by_text libraries.entry.firsts.now name.now) }
{
    let place = place_for(libraries.firsts, name)?;
    let expanded = libraries.expanded.get(place)?;
    match expanded {
        None => None,
        Some(expanded) => Some(expanded.exports.as_slice()),
    }
}

/// With entries; what clashes of them with those before is added.
fn with_entries(
    alloc: Global,
    gathering: Gathering,
    findings: &mut Vec<Finding>,
    set: SetAt<'_>,
    entries: Items<Entry>,
) -> Mem<Gathering>
    requires { gathering.clashes.items ≡ [] }
    ensures means { (names : Names) → TellsApart names → GroupsMean names gathering.groups.items → HaveMeaning names entries →
        IfOk result (λ g. GroupsMean names g.groups.items) }
    ensures apart { AreApart gathering.groups.items → IfOk result (λ g. AreApart g.groups.items) }
    ensures clashes { IfOk result (λ g. g.clashes.items ≡ []) }
    ensures exact { (names : Names) → TellsApart names → (es : List model.Entry) → GroupsStand names gathering.groups.items es →
        (ds : List model.Entry) → AreEntries names entries ds → IfOk result (λ g. GroupsStand names g.groups.items (model.gather es ds []).0) }
    ensures told { (names : Names) → TellsApart names → (es : List model.Entry) → GroupsStand names gathering.groups.items es →
        (ds : List model.Entry) → AreEntries names entries ds → OnOk result (all_told findings.new.items ≡ all_told findings.old.items
        ++ clash_diagnostics (record { document = set.entry.document; span = span_seen set.entry.spec.now.span }) (model.gather es ds []).1) }
    ensures errors { (names : Names) → TellsApart names → (es : List model.Entry) → GroupsStand names gathering.groups.items es →
        (ds : List model.Entry) → AreEntries names entries ds → OnOk result (errors_in findings.new.items ≡ errors_in findings.old.items ++ map (λ s. (52, set.entry.form)) (model.gather es ds []).1) }
    ensures findings { (count : ℕ) → set.entry.document < count → AreFoundIn count findings.old.items → OnOk result (AreFoundIn count findings.new.items) }
{
    let Gathering {
        groups,
        places,
        clashes,
    } = join_all(alloc, gathering, entries)?;
    add_clashes(alloc, findings, set, clashes)?;
    Ok(Gathering {
        groups,
        places,
        clashes: Vec::new(alloc),
    })
}

/// Adds the names that clash, the latest first.
fn add_clashes(
    alloc: Global,
    findings: &mut Vec<Finding>,
    set: SetAt<'_>,
    clashes: Vec<Text>,
) -> Mem<()>
    ensures inside { (count : ℕ) → set.entry.document < count → AreFoundIn count findings.old.items → OnOk result (AreFoundIn count findings.new.items) }
    ensures told { OnOk result (all_told findings.new.items
        ≡ all_told findings.old.items ++ clash_diagnostics (record { document = set.entry.document; span = span_seen set.entry.spec.now.span }) (reverse clashes.items)) }
    ensures errors { OnOk result (errors_in findings.new.items ≡ errors_in findings.old.items ++ map (λ s. (52, set.entry.form)) (reverse clashes.items)) }
{
    let mut clashes = clashes;
    while let Some(name) = clashes.pop() {
        let at = set.at(set.spec.span);
        add_found(alloc, findings, Some(at), set.form, 52, name.as_str())?;
    }
    Ok(())
}

/// Adds a set whose library isn't known.
fn add_unknown(alloc: Global, findings: &mut Vec<Finding>, set: SetAt<'_>) -> Mem<()>
    ensures inside { (count : ℕ) → set.entry.document < count → AreFoundIn count findings.old.items → OnOk result (AreFoundIn count findings.new.items) }
    ensures told { (s : program.ImportSpec) → (spelled : LibraryName → List ℕ) → IsSpec spelled set.entry.spec.now s → (bytes : Occ → Bytes) →
        OnOk result (all_told findings.new.items ≡ all_told findings.old.items ++ set_found bytes set.entry.document s program.Unknown) }
    ensures errors { OnOk result (errors_in findings.new.items ≡ errors_in findings.old.items) }
{
    let at = set.at(set.spec.library);
    Ok(add_found(alloc, findings, Some(at), set.form, 102, "")?)
}

/// Adds the fault of a set.
fn add_fault(
    alloc: Global,
    findings: &mut Vec<Finding>,
    places: Places<'_>,
    set: SetAt<'_>,
    fault: ImportFault,
) -> Mem<()>
    requires document { set.document < length places.documents.now }
    requires places { CanPlace places }
    ensures inside { AreFoundIn (length places.entry.documents.now) findings.old.items → OnOk result (AreFoundIn (length places.entry.documents.now) findings.new.items) }
    ensures told { (f : model.ImportFault) → IsSetFault fault f → (reads : List Read) → (us : List program.UnitResult) → ArePlaces places.entry reads us →
        OnOk result (all_told findings.new.items ≡ all_told findings.old.items
        ++ import_fault (bytes_of (spans_of reads) us) (record { document = set.entry.document; span = span_seen set.entry.spec.now.span }) f ∷ []) }
    ensures errors { (f : model.ImportFault) → IsSetFault fault f → OnOk result (errors_in findings.new.items ≡ errors_in findings.old.items ++ (import_code f, set.entry.form) ∷ []) }
{
    let whole = set.at(set.spec.span);
    match &fault {
        ImportFault::NotThere(name) => {
            let at = place_or(places, name.occ, whole);
            let name = name.name.as_str();
            Ok(add_found(alloc, findings, Some(at), set.form, 51, name)?)
        }
        ImportFault::Clash(name) => Ok(add_found(
            alloc,
            findings,
            Some(whole),
            set.form,
            52,
            name.as_str(),
        )?),
        ImportFault::BadSet => Ok(add_found(alloc, findings, Some(whole), set.form, 53, "")?),
        ImportFault::Memory => Err(Memory),
    }
}

/// Adds what is found.
pub fn add_found(
    alloc: Global,
    findings: &mut Vec<Finding>,
    at: Option<At>,
    form: u32,
    code: u32,
    name: &str,
) -> Mem<()>
    ensures inside { (count : ℕ) → IsAtIn count at → AreFoundIn count findings.old.items → OnOk result (AreFoundIn count findings.new.items) }
    ensures told { OnOk result (all_told findings.new.items ≡ all_told findings.old.items ++ told_at at code (worded code name.now)) }
    ensures errors { OnOk result (errors_in findings.new.items ≡ errors_in findings.old.items ++ error_by code form) }
{
    findings.push(Finding::new(alloc, at, form, code, name)?)?;
    Ok(())
}

/// The bytes of an occurrence, and these where there is none.
fn place_or(places: Places<'_>, occ: Option<Occ>, found: At) -> At
    requires places { CanPlace places }
    requires found { found.document < length places.documents.now }
    ensures inside { result.document < length places.entry.documents.now }
    ensures exact { (reads : List Read) → (us : List program.UnitResult) → ArePlaces places.entry reads us →
        bytes_at result ≡ bytes_or (bytes_of (spans_of reads) us) (bytes_at found) occ }
{
    match occ {
        None => found,
        Some(occ) => places.at(occ),
    }
}
