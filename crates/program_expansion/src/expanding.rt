//! Units one after another (R7RS 5.6), each after what it imports.
ghost use Rattle.std.specs.Prelude.{◌≡◌, ℕ, ◌+◌, ◌<◌, List, [], ◌∷◌, ◌++◌, length, replicate, map, vec_len, Some, None, IfOk, OnOk, IfSome, true, ◌==◌, if◌then◌else◌};
ghost use Rattle.scheme_model.specs.Declarations.{is_part_kind};
ghost use Rattle.scheme_model.specs.IncludedUnits.{Placed};
ghost use Rattle.scheme_model.specs.Program.{Prepared, UnitResult, is_in, form_trees, unit_entries, unit_result, result_at, with_refused};
ghost use Rattle.scheme_model.specs.Requirements.{Known, LibraryName};
ghost use Rattle.scheme_model.specs.ScopedProgram.{ScopedProgress, scoped_before};
ghost use Rattle.scheme_model.specs.UnitExpansion.{Formed};
ghost use Rattle.syntax_tree.specs.Meant.{AreEntries};
ghost use Rattle.syntax_tree.specs.Names.{KeepsNames};
ghost use Rattle.syntax_tree.specs.Works.{KeepsTrees};
ghost use Rattle.syntax_tree.specs.declared.trees.Work.{Work as AnyWork};
ghost use Rattle.core_tree.specs.Names.{AllMatch};
ghost use Rattle.core_tree.specs.Units.{FormsStand, definitions_from, kind_as};
ghost use Rattle.unit_sources.specs.Orders.{ArePlaces};
ghost use Rattle.unit_sources.specs.UnitsRead.{forms_of};
ghost use Rattle.program_expansion.specs.AtWork.{worked_forms};
ghost use Rattle.form_expansion.specs.Ends.{numbers_of};
ghost use Rattle.feature_requirements.specs.Judged.{Knows};
ghost use Rattle.unit_scopes.specs.Opened.{IsNew};
ghost use Rattle.unit_scopes.specs.Outcomes.{Grows};
ghost use Rattle.standard_scopes.specs.Begun.{IsImport};
ghost use Rattle.program_expansion.specs.UnitResults.{Expands, FindsLibraries, GoesOn, IsTurnOf, HeadsBy, IsUpTo, expanded_after, with_unit};
ghost use Rattle.read_documents.specs.UnitSources.{AreSourcesOf, IsSourceOf};
ghost use Rattle.program_leaves.specs.Formed.{IsFormed};
ghost use Rattle.unit_results.specs.Formed.{CameFormed};
ghost use Rattle.form_expansion.specs.Forms.{IsBench, AreFormed};
ghost use Rattle.read_documents.specs.Libraries.{FindsBelow};
ghost use Rattle.unit_imports.specs.EntriesMeant.{HaveMeaning, EachOnce, ExportsMean};
ghost use Rattle.read_documents.specs.Places.{AreFoundIn, AreHeads, ArePlaces as ArePlacesOf, CanPlace, HeadsStay, NamesKept, HaveTokens};
ghost use Rattle.read_documents.specs.Readings.{Read};
ghost use Rattle.document_units.specs.Sound.{IsSound};
ghost use Rattle.unit_imports.specs.SetsGiven.{AreLibraries};
ghost use Rattle.document_units.specs.Turned.{scoped_at, turns};
ghost use Rattle.unit_results.specs.UnitsExpanded.{AreAllFound};
ghost use Rattle.program_expansion.specs.UsesInTurn.{uses_at};
ghost use Rattle.unit_results.specs.UnitsFound.{AreResultsOf, AreSetsFound, AreLostIn, HaveFound, LostIn, in_the_end};
ghost use Rattle.read_documents.specs.UnitFindings.{IsFoundOf};
ghost use Rattle.read_documents.specs.WereRead.{WereRead};

use core_tree::units::UnitForm;
use document_units::breaking::break_if;
use document_units::listing::Units;
use expander::Imported;
use form_expansion::forms::{Bench, expand_forms};
use form_expansion::refused::refuse;
use ls_base::{Items, Mem, Steps};
use read_documents::documents::Document;
use read_documents::heads::WholeFault;
use read_documents::places::Places;
use read_documents::sets::Firsts;
use std::alloc::Global;
use std::sync::ledger::Ledger;
use syntax_tree::trees::Work;
use syntax_tree::units::{Entry, UnitKind};
use unit_imports::entries::{Given, Libraries, given_to};
use unit_imports::expanded::Expanded;
use unit_results::results::{blank_forms, finished, references};
use unit_sources::{UnitForm as SourceForm, UnitSource};

/// Expands the units that aren't broken, in an order in which each comes after what it imports. One that counts too many nodes
/// breaks.
pub fn expand_all<L: Ledger>(
    alloc: Global,
    bench: &mut Bench,
    documents: &[Document],
    units: &mut Units,
    firsts: &Firsts,
    order: &[u32],
    steps: &mut Steps<L>,
) -> Mem<Vec<Option<Expanded>>>
    requires bench { IsBench bench.old }
    requires units { IsSound (length documents.now) units.old }
    requires firsts { FindsBelow (vec_len units.old.heads) firsts.now }
    requires order { ArePlaces (vec_len units.old.heads) order.now }
    requires new { (unit : ℕ) → is_in unit order.now ≡ true → IsNew bench.old.scope unit }
    ensures heads { OnOk result (HeadsStay units.old.heads.items units.new.heads.items) }
    ensures kept { OnOk result (NamesKept units.old.heads.items units.new.heads.items) }
    ensures sources { units.new.sources ≡ units.old.sources }
    ensures count { IfOk result (λ all. vec_len all ≡ vec_len units.old.heads) }
    ensures found { IfOk result (λ all. AreAllFound (length documents.now) all.items) }
    ensures formed { IfOk result (λ all. CameFormed bench.new.work all.items) }
    // What stood before still stands, also where memory ran out.
    ensures grows { Grows bench.old.work bench.new.work bench.old.region }
    // In their turns the units come to what the definition has of them.
    ensures up { (spelled : LibraryName → List ℕ) (us : List Placed) (known : Known) → order.now ≡ turns us → vec_len units.old.heads ≡ length us → FindsLibraries spelled us firsts.now →
        Knows bench.old.scope.libraries known → GoesOn bench.old scoped_before → HeadsBy us scoped_before units.old.heads.items → AreSourcesOf spelled us units.old.sources.items →
        IfOk result (λ all. IsUpTo spelled us known (turns us) bench.new units.new all.items) }
    // What is found of each is what the definition has of it, where the program comes to have these units.
    ensures finds { (spelled : LibraryName → List ℕ) (us : List Placed) (known : Known) → order.now ≡ turns us → vec_len units.old.heads ≡ length us → FindsLibraries spelled us firsts.now →
        Knows bench.old.scope.libraries known → GoesOn bench.old scoped_before → HeadsBy us scoped_before units.old.heads.items → AreSourcesOf spelled us units.old.sources.items →
        (reads : List Read) (ends : List UnitResult) → AreHeads reads 0 units.old.heads.items ends → HaveTokens documents.now reads → AreResultsOf us ends → AreLostIn (length documents.now) us →
        IfOk result (λ all. HaveFound reads ends (scoped_at us known (turns us)) all.items) }
    // Each macro use that the definition counts for them is a step.
    ensures steps { (spelled : LibraryName → List ℕ) (us : List Placed) (known : Known) → order.now ≡ turns us → vec_len units.old.heads ≡ length us → FindsLibraries spelled us firsts.now →
        Knows bench.old.scope.libraries known → GoesOn bench.old scoped_before → HeadsBy us scoped_before units.old.heads.items → AreSourcesOf spelled us units.old.sources.items →
        OnOk result (steps.new ≡ steps.old + uses_at us known (turns us)) }
{
    let mut all = nothing(alloc, units.heads.len())?;
    for place in order {
        expand_at(
            alloc, bench, documents, units, firsts, *place, &mut all, steps,
        )?;
    }
    Ok(all)
}

/// Expands the unit at a place, unless it is broken. It breaks where it counts too many nodes.
fn expand_at<L: Ledger>(
    alloc: Global,
    bench: &mut Bench,
    documents: &[Document],
    units: &mut Units,
    firsts: &Firsts,
    place: u32,
    all: &mut Vec<Option<Expanded>>,
    steps: &mut Steps<L>,
) -> Mem<()>
    requires bench { IsBench bench.old }
    requires units { IsSound (length documents.now) units.old }
    requires place { place < vec_len units.old.heads }
    requires new { IsNew bench.old.scope place }
    requires count { vec_len all.old ≡ vec_len units.old.heads }
    requires found { AreAllFound (length documents.now) all.old.items }
    requires mean { ExportsMean bench.old.work.symbols all.old.items }
    requires formed { CameFormed bench.old.work all.old.items }
    ensures bench { OnOk result (IsBench bench.new) }
    ensures heads { OnOk result (HeadsStay units.old.heads.items units.new.heads.items) }
    ensures kept { OnOk result (NamesKept units.old.heads.items units.new.heads.items) }
    ensures sources { units.new.sources ≡ units.old.sources }
    ensures count { OnOk result (vec_len all.new ≡ vec_len all.old) }
    ensures found { OnOk result (AreAllFound (length documents.now) all.new.items) }
    ensures mean { OnOk result (ExportsMean bench.new.work.symbols all.new.items) }
    ensures formed { OnOk result (CameFormed bench.new.work all.new.items) }
    // What stood before still stands, also where memory ran out.
    ensures grows { Grows bench.old.work bench.new.work bench.old.region }
    ensures region { OnOk result (bench.new.region ≡ bench.old.region) }
    ensures others { (v : ℕ) → (v ≡ place → ⊥) → IsNew bench.old.scope v → OnOk result (IsNew bench.new.scope v) }
    // In its turn it comes to what the definition has of it.
    ensures next { (spelled : LibraryName → List ℕ) (us : List Placed) (known : Known) (x y : List ℕ) → turns us ≡ x ++ place ∷ y → FindsLibraries spelled us firsts.now →
        IsUpTo spelled us known x bench.old units.old all.old.items → OnOk result (IsUpTo spelled us known (x ++ place ∷ []) bench.new units.new all.new.items) }
    // What is found of it is what the definition has of it.
    ensures finds { (spelled : LibraryName → List ℕ) (us : List Placed) (known : Known) (x y : List ℕ) → turns us ≡ x ++ place ∷ y → FindsLibraries spelled us firsts.now →
        IsUpTo spelled us known x bench.old units.old all.old.items → (reads : List Read) (ends : List UnitResult) → AreHeads reads 0 units.old.heads.items ends → HaveTokens documents.now reads → AreResultsOf us ends →
        AreLostIn (length documents.now) us → HaveFound reads ends (scoped_at us known x) all.old.items → OnOk result (HaveFound reads ends (scoped_at us known (x ++ place ∷ [])) all.new.items) }
    // Each macro use that the definition counts for it is a step.
    ensures steps { (spelled : LibraryName → List ℕ) (us : List Placed) (known : Known) (x y : List ℕ) → turns us ≡ x ++ place ∷ y → FindsLibraries spelled us firsts.now →
        IsUpTo spelled us known x bench.old units.old all.old.items → OnOk result (steps.new + uses_at us known x ≡ steps.old + uses_at us known (x ++ place ∷ [])) }
{
    let unit = place as usize;
    if units.heads[unit].fault.is_some() {
        return Ok(());
    }
    let heads = units.heads.as_slice();
    let places = Places { documents, heads };
    let expanded = all.as_slice();
    let libraries = Libraries { firsts, expanded };
    let source = &units.sources[unit];
    let given = given_to(alloc, &mut bench.work, places, libraries, source)?;
    bench.work.symbols.told_apart();
    let came = expand_unit(alloc, bench, places, libraries, place, source, given, steps)?;
    break_if(&mut units.heads[unit], came.is_none(), WholeFault::TooLarge);
    all[unit] = came;
    Ok(())
}

/// Nothing for each of so many units.
fn nothing(alloc: Global, count: usize) -> Mem<Vec<Option<Expanded>>>
    ensures { IfOk result (λ all. all.items ≡ replicate count None) }
{
    let mut all = Vec::new(alloc);
    for _place in 0..count {
        all.push(None)?;
    }
    Ok(all)
}

/// Expands a unit that imports these. `None` where it counts too many nodes.
fn expand_unit<L: Ledger>(
    alloc: Global,
    bench: &mut Bench,
    places: Places<'_>,
    libraries: Libraries<'_>,
    unit: u32,
    source: &UnitSource,
    given: Given,
    steps: &mut Steps<L>,
) -> Mem<Option<Expanded>>
    requires bench { IsBench bench.old }
    requires new { IsNew bench.old.scope unit }
    requires read { WereRead (forms_of source.now.forms) }
    requires documents { 0 < length places.documents.now }
    requires places { CanPlace places }
    requires exports { ExportsMean bench.old.work.symbols libraries.expanded.now }
    requires entries { HaveMeaning bench.old.work.symbols given.joined.entries.items }
    requires once { EachOnce given.joined.entries.items }
    requires findings { AreFoundIn (length places.documents.now) given.findings.items }
    ensures bench { OnOk result (IsBench bench.new) }
    ensures others { (v : ℕ) → (v ≡ unit → ⊥) → IsNew bench.old.scope v → OnOk result (IsNew bench.new.scope v) }
    ensures trees { OnOk result (KeepsTrees bench.old.work bench.new.work) }
    ensures names { OnOk result (KeepsNames bench.old.work.symbols bench.new.work.symbols) }
    ensures grows { Grows bench.old.work bench.new.work bench.old.region }
    ensures region { OnOk result (bench.new.region ≡ bench.old.region) }
    ensures formed { IfOk result (λ came. IfSome came (λ came. IsFormed bench.new.work unit came.forms)) }
    ensures findings { IfOk result (λ came. IfSome came (λ came. AreFoundIn (length places.entry.documents.now) came.findings.items)) }
    ensures exports { IfOk result (λ came. IfSome came (λ came. HaveMeaning bench.new.work.symbols came.exports)) }
    ensures libraries { (known : Known) → Knows bench.old.scope.libraries known → OnOk result (Knows bench.new.scope.libraries known) }
    // The unit comes to what the definition gives, and the bench goes on behind it.
    ensures expands { (spelled : LibraryName → List ℕ) (us : List Placed) (known : Known) (g : ScopedProgress) (p : Prepared) → Knows bench.old.scope.libraries known →
        GoesOn bench.old g → IsTurnOf us known g p → p.number ≡ unit → IsSourceOf spelled p None source.now → AreLibraries bench.old.work.symbols libraries.entry spelled us g.results →
        let given_entries = unit_entries us g.results p in
        AreEntries bench.old.work.symbols given.joined.entries.items given_entries.0 → IfOk result (Expands us known bench.new g p given_entries steps.old steps.new) }
    // What is found of it is what the definition has of it, where the program comes to have these units.
    ensures finds { (spelled : LibraryName → List ℕ) (us : List Placed) (known : Known) (g : ScopedProgress) (p : Prepared) → Knows bench.old.scope.libraries known →
        GoesOn bench.old g → IsTurnOf us known g p → p.number ≡ unit → IsSourceOf spelled p None source.now → let given_entries = unit_entries us g.results p in AreEntries bench.old.work.symbols given.joined.entries.items given_entries.0 →
        (reads : List Read) (ends : List UnitResult) (r : UnitResult) → ArePlacesOf places.entry reads ends → result_at ends unit ≡ Some r → r.unit ≡ p → AreSetsFound reads ends p given_entries.1 given.findings.items →
        LostIn (length places.entry.documents.now) p.placed.source.lost →
        IfOk result (λ came. IfSome came (λ came. IsFoundOf reads (in_the_end ends (with_unit g (expanded_after known g p given_entries.0).1))
        (unit_result p given_entries (expanded_after known g p given_entries.0).1.table (expanded_after known g p given_entries.0).0) came.findings.items)) }
{
    let imports = imported(alloc, &mut bench.work, given.joined.entries.as_slice())?;
    bench.work.symbols.told_apart();
    let Bench { work, scope, .. } = bench;
    scope.begin_unit(work, unit, source.kind, imports.as_slice())?;
    let expanded = expand_forms(alloc, bench, unit, at_work(source), steps)?;
    match expanded {
        None => Ok(None),
        Some(forms) => {
            let forms = all_forms(alloc, unit, source, forms)?;
            let rest = {
                let referred = references(alloc, forms.as_slice())?;
                finished(
                    alloc,
                    &mut bench.work,
                    places,
                    libraries,
                    unit,
                    source,
                    given,
                    referred.as_slice(),
                )?
            };
            bench.work.symbols.told_apart();
            Ok(Some(rest.with(forms)))
        }
    }
}

/// Whether a unit is the program of a text that others include.
fn is_part(kind: UnitKind) -> bool
    ensures { result ≡ is_part_kind (kind_as kind) }
{
    kind == UnitKind::Part
}

/// The forms of a unit that are worked on. Those of a part are where it is included.
fn at_work(source: &UnitSource) -> &[SourceForm]
    ensures { result.now ≡ worked_forms source.now }
{
    if is_part(source.kind) {
        return &[];
    }
    source.forms.as_slice()
}

/// The forms of a unit, by what those came to that are worked on. The others are blank.
fn all_forms(
    alloc: Global,
    unit: u32,
    source: &UnitSource,
    forms: Items<UnitForm>,
) -> Mem<Items<UnitForm>>
    requires { length forms ≡ length (worked_forms source.now) }
    ensures count { IfOk result (λ all. length all ≡ length source.now.forms) }
    ensures definitions { IfOk result (λ all. definitions_from 0 all ≡ definitions_from 0 forms) }
    ensures formed { (work : AnyWork) → AreFormed work unit forms → IfOk result (AreFormed work unit) }
    ensures stand { (work : AnyWork) (fs : List Formed) → FormsStand work unit 0 forms fs → map (λ (f : Formed). f.form) fs ≡ numbers_of (form_trees unit 0 (forms_of (worked_forms source.now))) →
        IfOk result (λ all. FormsStand work unit 0 all (with_refused unit 0 (forms_of (worked_forms source.now)) fs)) }
{
    if is_part(source.kind) {
        return Ok(blank_forms(alloc, source.forms.as_slice().len())?);
    }
    Ok(refuse(unit, source.forms.as_slice(), forms)?)
}

/// The symbols of entries, and what they mean.
fn imported(alloc: Global, work: &mut Work, entries: &[Entry]) -> Mem<Vec<Imported>>
    ensures imports { IfOk result (λ imports. AllMatch (IsImport work.new.symbols) imports.items entries.now) }
    ensures trees { work.new.trees ≡ work.old.trees }
    ensures names { KeepsNames work.old.symbols work.new.symbols }
{
    let mut imports = Vec::new(alloc);
    for entry in entries {
        let symbol = work.symbols.symbol(entry.name.as_str())?;
        imports.push(Imported {
            symbol,
            meaning: entry.meaning,
        })?;
    }
    Ok(imports)
}
