//! All that was read and expanded, put together: the program, and what is found in each document.
ghost use Rattle.std.specs.Prelude.{◌≡◌, ℕ, ◌<◌, List, [], length, map, slice_get, vec_len, Some, None, IfOk, IfSome};
ghost use Rattle.std.specs.FinMap.{entries};
ghost use Rattle.scheme_model.specs.Program.{Program as Model, UnitResult, WholeFault as Whole, result_at};
ghost use Rattle.syntax_tree.specs.declared.trees.Work.{Work as AnyWork};
ghost use Rattle.core_tree.specs.Units.{error_as};
ghost use Rattle.document_store.specs.Texts.{Document as Text};
ghost use Rattle.read_documents.specs.declared.heads.Head.{Head as AnyHead};
ghost use Rattle.read_documents.specs.Belongs.{AreErrorsIn};
ghost use Rattle.program_leaves.specs.Formed.{AreFormedIn, IsFormed};
ghost use Rattle.read_documents.specs.Broken.{told};
ghost use Rattle.unit_imports.specs.Collected.{AreCollected, Has, IsNothing};
ghost use Rattle.read_documents.specs.UnitFindings.{HaveErrors, AreFirstErrors, IsFoundOf};
ghost use Rattle.unit_results.specs.Formed.{CameFormed};
ghost use Rattle.read_documents.specs.Findings.{errors_in};
ghost use Rattle.read_documents.specs.Listed.{AreFoundOf};
ghost use Rattle.read_documents.specs.Places.{AreFoundIn, AreHeadsIn, ArePlaces, CanPlace, HeadsStay, SameHead, HaveTokens};
ghost use Rattle.read_documents.specs.Readings.{AreDocuments, AreReadAs, Read, program_in};
ghost use Rattle.document_units.specs.Sound.{IsSound};
ghost use Rattle.unit_results.specs.UnitsExpanded.{AreAllFound};
ghost use Rattle.unit_results.specs.UnitsFound.{AreTold, IsTold};

use crate::results::broken;
use core_tree::units::{Program, Unit};
use document_units::listing::Units;
use ls_base::{Items, Mem};
use program_findings::diagnosing::tell_unread;
use program_findings::sorted_findings::{add, first_error, none};
use read_documents::documents::Document;
use read_documents::findings::{At, Finding, Sorted, errors};
use read_documents::form_numbers::number_of;
use read_documents::heads::{Head, WholeFault};
use read_documents::places::Places;
use std::alloc::Global;
use std::mem;
use unit_imports::expanded::Expanded;

/// The documents as they are read, the units, the program, the findings of each document, and the first Error of each unit.
#[derive(Drop)]
pub struct Reading {
    pub documents: Vec<Document>,
    pub heads: Vec<Head>,
    pub program: Program,
    pub findings: Vec<Sorted>,
    pub errors: Vec<Option<(At, u32)>>,
}

/// All that was read, put together.
pub fn collect(
    alloc: Global,
    documents: Vec<Document>,
    units: Units,
    expanded: Vec<Option<Expanded>>,
) -> Mem<Reading>
    requires units { IsSound (vec_len documents) units }
    requires count { vec_len expanded ≡ vec_len units.heads }
    requires found { AreAllFound (vec_len documents) expanded.items }
    ensures documents { IfOk result (λ reading. reading.documents ≡ documents) }
    ensures heads { IfOk result (λ reading. AreHeadsIn (vec_len documents) reading.heads.items) }
    ensures stay { IfOk result (λ reading. HeadsStay units.heads.items reading.heads.items) }
    ensures errors { IfOk result (λ reading. AreErrorsIn (vec_len documents) reading.errors.items) }
    ensures findings { IfOk result (λ reading. vec_len reading.findings ≡ vec_len documents) }
    ensures formed { (work : AnyWork) → CameFormed work expanded.items → IfOk result (λ reading. AreFormedIn work reading.program.units) }
    // The program has each unit at its place, by its head and what it came to.
    ensures collected { IfOk result (λ reading. AreCollected (map (λ document. document.uri) documents.items) units.heads.items units.sources.items expanded.items reading.program.units) }
    // What is found of each document, the Errors of each unit and the first of them are the definition's, where units came so.
    ensures found { (ds : List (List ℕ × Text)) (rs : List Read) → AreDocuments ds documents.items → AreReadAs ds rs → HaveTokens documents.items rs → AreTold rs (program_in rs) units.heads.items expanded.items →
        IfOk result (λ reading. AreFoundOf rs reading.findings.items) }
    ensures told { (rs : List Read) (p : Model) → HaveTokens documents.items rs → AreTold rs p units.heads.items expanded.items → IfOk result (λ reading. HaveErrors reading.program.units p.units) }
    ensures firsts { (rs : List Read) (p : Model) → HaveTokens documents.items rs → AreTold rs p units.heads.items expanded.items → IfOk result (λ reading. AreFirstErrors rs p reading.errors.items) }
{
    let Units { mut heads, sources } = units;
    let mut findings = none(alloc, documents.len())?;
    let mut first_errors = Vec::new(alloc);
    let mut program = Items::new(alloc);
    for (place, came) in expanded.into_iter().enumerate() {
        let places = Places {
            documents: documents.as_slice(),
            heads: heads.as_slice(),
        };
        let source = &sources[place];
        let count = source.forms.as_slice().len();
        let came = came_to(alloc, places, place, count, came)?;
        let (unit, found) = unit_of(alloc, documents.as_slice(), &mut heads[place], came)?;
        first_errors.push(first_error(found.as_slice()))?;
        add(&mut findings, found)?;
        program.push(unit)?;
    }
    tell_unread(alloc, documents.as_slice(), &mut findings)?;
    Ok(Reading {
        documents,
        heads,
        program: Program { units: program },
        findings,
        errors: first_errors,
    })
}

/// What the unit at a place came to, where it is broken as a whole or isn't.
fn came_to(
    alloc: Global,
    places: Places<'_>,
    place: usize,
    count: usize,
    came: Option<Expanded>,
) -> Mem<Expanded>
    requires place { place < length places.heads.now }
    requires documents { 0 < length places.documents.now }
    requires places { CanPlace places }
    requires found { IfSome came (λ came. AreFoundIn (length places.documents.now) came.findings.items) }
    ensures found { IfOk result (λ came. AreFoundIn (length places.entry.documents.now) came.findings.items) }
    ensures formed { (work : AnyWork) → IfSome came (λ came. IsFormed work place came.forms) → IfOk result (λ came. IsFormed work place came.forms) }
    ensures some { IfSome came (λ came. IfOk result (λ unit. unit ≡ came)) }
    ensures none { came ≡ None → IfOk result (IsNothing count) }
    ensures told { (rs : List Read) (p : Model) (h : AnyHead) (r : UnitResult) → ArePlaces places.entry rs p.units → result_at p.units place ≡ Some r → slice_get places.entry.heads.now place ≡ Some h → IsTold rs p h came r →
        IfOk result (λ came. IsFoundOf rs p r came.findings.items) }
{
    match came {
        Some(came) => Ok(came),
        None => Ok(broken_at(alloc, places, place, count)?),
    }
}

/// What the unit at a place comes to, which is broken as a whole.
fn broken_at(alloc: Global, places: Places<'_>, place: usize, count: usize) -> Mem<Expanded>
    requires place { place < length places.heads.now }
    requires documents { 0 < length places.documents.now }
    requires places { CanPlace places }
    ensures found { IfOk result (λ came. AreFoundIn (length places.entry.documents.now) came.findings.items) }
    ensures formed { (work : AnyWork) → IfOk result (λ came. IsFormed work place came.forms) }
    ensures nothing { IfOk result (IsNothing count) }
    ensures told { (rs : List Read) (p : Model) (h : AnyHead) (r : UnitResult) (f : Whole) → ArePlaces places.entry rs p.units → result_at p.units place ≡ Some r → slice_get places.entry.heads.now place ≡ Some h →
        h.fault ≡ Some (told f) → r.fault ≡ Some f → IfOk result (λ came. IsFoundOf rs p r came.findings.items) }
{
    let fault = places.heads[place].fault.unwrap_or(WholeFault::TooLarge);
    let unit = number_of(place)?;
    Ok(broken(alloc, places, unit, fault, count)?)
}

/// A unit by what it came to, and what is found wrong in it. What it imports is taken out of its head.
fn unit_of(
    alloc: Global,
    documents: &[Document],
    head: &mut Head,
    came: Expanded,
) -> Mem<(Unit, Vec<Finding>)>
    requires { head.old.document < length documents.now }
    ensures head { SameHead head.old head.new }
    ensures findings { IfOk result (λ unit. unit.1 ≡ came.findings) }
    ensures forms { IfOk result (λ unit. unit.0.forms ≡ came.forms) }
    ensures has { IfOk result (λ unit. Has unit.0 came) }
    ensures uri { IfOk result (λ unit. slice_get (map (λ document. document.uri) documents.now) head.old.document ≡ Some unit.0.uri) }
    ensures kind { IfOk result (λ unit. unit.0.kind ≡ head.old.kind) }
    ensures name { IfOk result (λ unit. unit.0.name ≡ head.old.name) }
    ensures imports { IfOk result (λ unit. unit.0.imports ≡ head.old.imports) }
    ensures ranges { IfOk result (λ unit. unit.0.ranges.items ≡ head.old.ranges.items) }
    ensures errors { IfOk result (λ unit. map error_as unit.0.errors ≡ errors_in came.findings.items) }
{
    let Expanded {
        entries,
        forms,
        names,
        seconds,
        exports,
        findings,
    } = came;
    let unit = Unit {
        uri: documents[head.document].uri.clone()?,
        kind: head.kind,
        name: mem::replace(&mut head.name, None),
        forms,
        ranges: head.ranges.clone()?,
        imports: mem::replace(&mut head.imports, Items::new(alloc)),
        names,
        seconds,
        entries: Items::from_vec(entries),
        exports,
        errors: errors(alloc, findings.as_slice())?,
    };
    Ok((unit, findings))
}
