//! The program of the open documents (R7RS 5), and all that is wrong in it.
ghost use Rattle.std.specs.Prelude.{◌≡◌, ℕ, ◌+◌, ◌<◌, ◌≤◌, List, [], ◌∷◌, length, vec_len, IfOk, OnOk};
ghost use Rattle.std.specs.FinMap.{entries};
ghost use Rattle.ls_base.specs.Limits.{max_documents};
ghost use Rattle.scheme_model.specs.Prelude.{prelude};
ghost use Rattle.scheme_model.specs.Includes.{Document as ModelDocument};
ghost use Rattle.scheme_model.specs.Program.{known_in, prelude_unit, units_of};
ghost use Rattle.scheme_model.specs.Requirements.{LibraryName};
ghost use Rattle.syntax_tree.specs.Names.{KeepsNames};
ghost use Rattle.syntax_tree.specs.Works.{IsOpened, KeepsTrees};
ghost use Rattle.scheme_tokens.specs.LibraryNames.{library_text};
ghost use Rattle.base_library.specs.Texts.{SpellsStandard};
ghost use Rattle.unit_scopes.specs.Opened.{IsNew};
ghost use Rattle.unit_scopes.specs.Outcomes.{Grows};
ghost use Rattle.unit_scopes.specs.Preluded.{prelude_state};
ghost use Rattle.unit_scopes.specs.Units.{UnitStands};
ghost use Rattle.document_store.specs.Texts.{Document as Text};
ghost use Rattle.unit_results.specs.ReadingOf.{IsReading};
ghost use Rattle.read_documents.specs.Broken.{told};
ghost use Rattle.program_expansion.specs.UnitResults.{IsUpTo};
ghost use Rattle.unit_imports.specs.Collected.{AreHeadsOf};
ghost use Rattle.read_documents.specs.DataRead.{AreOpened, AreReadIn};
ghost use Rattle.unit_results.specs.Formed.{CameFormed};
ghost use Rattle.read_documents.specs.Readings.{AreDocuments, AreReadAs, Read, program_in, uses_in};
ghost use Rattle.document_units.specs.Sound.{IsSound};
ghost use Rattle.document_units.specs.Turned.{turns};
ghost use Rattle.unit_results.specs.UnitsExpanded.{AreAllFound};
ghost use Rattle.program_expansion.specs.UsesInTurn.{uses_at};
ghost use Rattle.unit_results.specs.UnitsFound.{AreTold};
ghost use Rattle.document_units.specs.UnitsListed.{WritesProper};

use crate::expanding::expand_all;
use document_store::Store;
use document_units::breaking::{firsts, judge};
use document_units::known::known;
use document_units::listing::{Units, list_units};
use expander::Libraries;
use form_expansion::forms::Bench;
use known_libraries::KnownLibraries;
use ls_base::{Mem, Steps};
use read_documents::documents::{Document, read};
use read_documents::sets::Firsts;
use standard_scopes::prelude::begin;
use std::alloc::Global;
use std::mem;
use std::sync::ledger::Ledger;
use syntax_tree::trees::Work;
use unit_imports::expanded::Expanded;
use unit_results::collecting::{Reading, collect};

/// The units of documents as they were expanded, and what each came to.
#[derive(Drop)]
struct Worked {
    units: Units,
    expanded: Vec<Option<Expanded>>,
}

/// Reads all documents and expands their units. What stood among the trees and names before still stands, also where memory ran out.
pub fn read_program<L: Ledger>(
    alloc: Global,
    store: &Store,
    work: &mut Work,
    steps: &mut Steps<L>,
) -> Mem<Reading>
    ensures reading { IfOk result (IsReading store.now work.new) }
    ensures few { IfOk result (λ reading. length (entries store.now) ≤ max_documents) }
    // Each macro use that the definition counts for the texts is a step.
    ensures steps { (rs : List Read) → AreReadAs (entries store.now) rs → OnOk result (steps.new ≡ steps.old + uses_in rs) }
    ensures trees { KeepsTrees work.old work.new }
    ensures names { KeepsNames work.old.symbols work.new.symbols }
{
    let documents = read(alloc, store)?;
    let region = work.open_region()?;
    let scope = begin(alloc, work, &region)?;
    let mut bench = Bench {
        work: mem::replace(work, Work::new(alloc)),
        region,
        scope,
    };
    let came = work_on(alloc, &mut bench, documents.as_slice(), steps);
    *work = bench.work;
    let worked = came?;
    let Worked { units, expanded } = worked;
    Ok(collect(alloc, documents, units, expanded)?)
}

/// Expands the units of documents on a bench in which the prelude stands, and no unit else.
fn work_on<L: Ledger>(
    alloc: Global,
    bench: &mut Bench,
    documents: &[Document],
    steps: &mut Steps<L>,
) -> Mem<Worked>
    requires read { AreReadIn documents.now }
    requires region { IsOpened bench.old.work bench.old.region }
    requires stands { UnitStands bench.old.work bench.old.scope ([] ∷ []) (prelude_state prelude) [] }
    requires new { (unit : ℕ) → (unit ≡ prelude_unit → ⊥) → IsNew bench.old.scope unit }
    ensures units { IfOk result (λ worked. IsSound (length documents.now) worked.units) }
    ensures count { IfOk result (λ worked. vec_len worked.expanded ≡ vec_len worked.units.heads) }
    ensures found { IfOk result (λ worked. AreAllFound (length documents.now) worked.expanded.items) }
    ensures formed { IfOk result (λ worked. CameFormed bench.new.work worked.expanded.items) }
    // The units are those of the documents' data, and in their turns they came to what the definition has of them.
    ensures up { (ds : List ModelDocument) → AreOpened ds documents.now → (spelled : LibraryName → List ℕ) → SpellsStandard spelled → WritesProper spelled →
        IfOk result (λ worked. IsUpTo spelled (units_of ds) (known_in ds) (turns (units_of ds)) bench.new worked.units worked.expanded.items) }
    // Each macro use that the definition counts for them is a step.
    ensures steps { (ds : List ModelDocument) → AreOpened ds documents.now → (spelled : LibraryName → List ℕ) → SpellsStandard spelled → WritesProper spelled →
        OnOk result (steps.new ≡ steps.old + uses_at (units_of ds) (known_in ds) (turns (units_of ds))) }
    // Their heads have what they do.
    ensures heads { (ds : List ModelDocument) → AreOpened ds documents.now → (spelled : LibraryName → List ℕ) → SpellsStandard spelled → WritesProper spelled →
        IfOk result (λ worked. AreHeadsOf library_text (units_of ds) worked.units.heads.items) }
    // What came of them and is found in them is what the program of the texts has, however these are read.
    ensures told { (ds : List (List ℕ × Text)) (rs : List Read) → AreDocuments ds documents.now → AreReadAs ds rs →
        IfOk result (λ worked. AreTold rs (program_in rs) worked.units.heads.items worked.expanded.items) }
    // What stood before still stands, also where memory ran out.
    ensures grows { Grows bench.old.work bench.new.work bench.old.region }
{
    let known = known(alloc, documents)?;
    let libraries = KnownLibraries::of(alloc, &known)?;
    let mut units = list_units(alloc, documents, &libraries)?;
    let firsts: Firsts = firsts(alloc, units.sources.as_slice())?;
    let order = judge(alloc, &mut units, &firsts)?;
    bench.scope.know(Libraries::of(alloc, &known)?);
    let expanded = expand_all(
        alloc,
        bench,
        documents,
        &mut units,
        &firsts,
        order.as_slice(),
        steps,
    )?;
    Ok(Worked { units, expanded })
}
