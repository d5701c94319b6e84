//! What a rename comes to before programs are compared: its edits, and what the programs are compared by.
ghost use Rattle.std.specs.Prelude.{◌≡◌, ◌<◌, ◌≤◌, ◌++◌, ℕ, [], List, length, map, slice_get, None, Some, IfOk, OnOk};
ghost use Rattle.std.specs.BTreeMap.{get};
ghost use Rattle.std.specs.FinMap.{entries};
ghost use Rattle.std.specs.Option.{option_map};
ghost use Rattle.ls_base.specs.Limits.{max_documents};
ghost use Rattle.scheme_model.specs.declared.Occ.{Occ as AnyOcc};
ghost use Rattle.document_store.specs.Texts.{Document as Entered};
ghost use Rattle.read_documents.specs.Readings.{Read, AreReadAs};
ghost use Rattle.program_answers.specs.Classed.{IsClassOf};
ghost use Rattle.program_answers.specs.ToldAnswers.{facts_in, name_there};
ghost use Rattle.text_edits.specs.Views.{occ_cmp};
ghost use Rattle.class_edits.specs.Clashes.{clashing};
ghost use Rattle.class_edits.specs.DocumentEdits.{CanEditAll, edits_of_class, seen, too_long};
ghost use Rattle.class_edits.specs.Named.{AreNamed};
ghost use Rattle.program_differences.specs.Exported.{changes_as};
ghost use Rattle.rename_conditions.specs.Readers.{Reader, IsReader};
ghost use Rattle.document_changes.specs.Edited.{CanEdit};
ghost use Rattle.rename_planner.specs.Changes.{all_changes, change_told, named_at, occ_from_end, unit_changes};
ghost use Rattle.rename_planner.specs.Planning.{ComesTo, IsNamed, IsOpenText, IsPlanned, named_in, planned_in};
ghost use Rattle.rename_answers.specs.ReadDocuments.{read_as};

use crate::conditions::{
    all_read, all_whole, bound, fitting_edits, no_clash, no_standard, stem, symbol,
};
use class_edits::members::members;
use class_edits::told_edits;
use core_tree::units::{NameUse, Unit};
use ls_base::limits::MAX_DOCUMENTS;
use ls_base::{DocEdits, Items, Mem, Pos, Text};
use program_answers::open::Open;
use program_differences::plan::{ExportChange, Plan};
use read_documents::form_numbers::number_of;
use read_documents::opened::{Opened, nth};
use rename_answers::RenameFault;
use scheme_model::Occ;
use std::alloc::Global;
use syntax_tree::units::Entry;
use text_edits::{Edit, Members};
use workspace_state::{Class, ClassPart, Workspace};

/// The edits that a rename would make, and what the programs are compared by.
#[derive(Drop)]
pub struct Planned {
    pub edits: Items<DocEdits>,
    pub plan: Plan,
}

/// A class with its new stem.
#[derive(Drop)]
pub struct Named {
    pub class: Class,
    pub stem: Text,
}

/// What a rename comes to, unless one of the conditions refuses it that are tested before programs are compared.
pub fn plan_rename(
    alloc: Global,
    ws: &Workspace,
    uri: &str,
    position: Pos,
    new_name: &str,
) -> Result<Planned, RenameFault>
    ensures exact { (r : Reader) (rs : List Read) → IsReader r → AreReadAs (entries ws.now.texts) rs →
        ComesTo ws.now.encoding (entries ws.now.texts) (IsPlanned ws.now.encoding (entries ws.now.texts) (read_as (entries ws.now.texts) rs))
        (planned_in (read_as (entries ws.now.texts) rs) (name_there ws.now.encoding (entries ws.now.texts) rs uri.now position) (r.symbol new_name.now)) result }
    // They can be tried.
    ensures tried { IfOk result (λ planned. CanEdit ws.now.encoding planned.edits (entries ws.now.texts)) }
    ensures documents { OnOk result (0 < length (entries ws.now.texts)) }
{
    let Named { class, stem } = name_class(alloc, ws, uri, position, new_name)?;
    no_clash(ws, &class)?;
    all_whole(ws, &class)?;
    let members = named_members(alloc, &class, stem.as_str())?;
    let all = fitting_edits(alloc, ws, &members)?;
    let planned = told(alloc, ws, &class, &members, all.as_slice())?;
    Ok(planned)
}

/// The members of a class, each with its new name.
fn named_members(alloc: Global, class: &Class, stem: &str) -> Mem<Members>
    ensures { (ds : List (List ℕ × Entered)) (rs : List Read) (o : AnyOcc) → IsClassOf ds (facts_in rs) o class.now → clashing (facts_in rs).links o ≡ [] →
        IfOk result (λ members. AreNamed (facts_in rs).links stem.now o (λ x. get occ_cmp members x)) }
{
    Ok(members(alloc, class.parts.as_slice(), stem)?)
}

/// The class of an identifier and its new stem, by the conditions on names and readings.
fn name_class(
    alloc: Global,
    ws: &Workspace,
    uri: &str,
    position: Pos,
    new_name: &str,
) -> Result<Named, RenameFault>
    ensures exact { (r : Reader) (rs : List Read) → IsReader r → AreReadAs (entries ws.now.texts) rs →
        ComesTo ws.now.encoding (entries ws.now.texts) (IsNamed (entries ws.now.texts) rs)
        (named_in (read_as (entries ws.now.texts) rs) (name_there ws.now.encoding (entries ws.now.texts) rs uri.now position) (r.symbol new_name.now)) result }
    ensures documents { OnOk result (0 < length (entries ws.now.texts)) }
{
    let class = bound(ws, uri, position)?;
    no_standard(&class)?;
    let symbol = symbol(alloc, new_name)?;
    all_read(alloc, ws)?;
    let stem = stem(alloc, class.prefix.as_str(), symbol.as_str())?;
    Ok(Named { class, stem })
}

/// The edits as they are told, and what the programs are compared by.
fn told(
    alloc: Global,
    ws: &Workspace,
    class: &Class,
    members: &Members,
    all: &[Items<Edit>],
) -> Mem<Planned>
    requires made { CanEditAll (entries ws.now.texts) all.now }
    requires fit { too_long (entries ws.now.texts) (seen all.now) ≡ None }
    ensures exact { (rs : List Read) (o : AnyOcc) (stem : List ℕ) → AreReadAs (entries ws.now.texts) rs → IsClassOf (entries ws.now.texts) (facts_in rs) o class.now →
        AreNamed (facts_in rs).links stem o (λ x. get occ_cmp members.now x) → seen all.now ≡ edits_of_class (entries ws.now.texts) rs stem o →
        IfOk result (IsPlanned ws.now.encoding (entries ws.now.texts) (read_as (entries ws.now.texts) rs) (o, stem)) }
    ensures tried { (rs : List Read) (o : AnyOcc) (stem : List ℕ) → AreReadAs (entries ws.now.texts) rs → seen all.now ≡ edits_of_class (entries ws.now.texts) rs stem o →
        IfOk result (λ planned. CanEdit ws.now.encoding planned.edits (entries ws.now.texts)) }
{
    see_texts(ws.open());
    let edits = told_edits(alloc, ws.open(), all, ws.encoding())?;
    let class = occurrences(alloc, class.parts.as_slice())?;
    let exports = changes(alloc, ws.program().units.as_slice(), members)?;
    let plan = Plan { class, exports };
    Ok(Planned { edits, plan })
}

/// What is known of each open text. It changes nothing.
fn see_texts(texts: &Open)
    ensures { (n : ℕ) (d : List ℕ × Entered) → slice_get (entries texts.now) n ≡ Some d → IsOpenText d.1.1 }
{
    for n in 0..MAX_DOCUMENTS as u32 {
        see_text(texts, n);
    }
}

/// What is known of the nth.
fn see_text(texts: &Open, n: u32)
    ensures text { (d : List ℕ × Entered) → slice_get (entries texts.now) n ≡ Some d → IsOpenText d.1.1 }
    ensures few { length (entries texts.now) ≤ max_documents }
{
    if let Some(Opened { text, .. }) = nth(texts.store(), n) {
        let _shown = text.len();
    }
}

/// Where the parts of a class stand.
fn occurrences(alloc: Global, parts: &[ClassPart]) -> Mem<Items<Occ>>
    ensures { IfOk result (λ occs. occs ≡ map (λ part. part.occ) parts.now) }
{
    let mut occs = Items::new(alloc);
    for part in parts {
        occs.push(part.occ)?;
    }
    Ok(occs)
}

/// The exports whose external names are members, with their new names.
fn changes(alloc: Global, units: &[Unit], members: &Members) -> Mem<Items<ExportChange>>
    ensures { IfOk result (λ changes. changes_as changes ≡ all_changes (λ o. get occ_cmp members.now o) 0 units.now) }
{
    let mut changes = Items::new(alloc);
    for (place, unit) in units.iter().enumerate() {
        change_unit(alloc, &mut changes, number_of(place)?, unit, members)?;
    }
    Ok(changes)
}

/// Adds those of a unit, whose last names are the external ones.
fn change_unit(
    alloc: Global,
    changes: &mut Items<ExportChange>,
    place: u32,
    unit: &Unit,
    members: &Members,
) -> Mem<()>
    ensures { OnOk result (changes_as changes.new ≡ changes_as changes.old ++ unit_changes (λ o. get occ_cmp members.now o) place unit.now) }
{
    let exports = unit.exports.as_slice();
    let names = unit.names.as_slice();
    for (number, export) in exports.iter().enumerate() {
        let occ = external_occ(names, exports.len() - number);
        change_export(alloc, changes, place, export, occ, members)?;
    }
    Ok(())
}

/// Adds that of an export, where its external name is a member.
fn change_export(
    alloc: Global,
    changes: &mut Items<ExportChange>,
    unit: u32,
    export: &Entry,
    occ: Option<Occ>,
    members: &Members,
) -> Mem<()>
    ensures { OnOk result (changes_as changes.new ≡ changes_as changes.old ++ change_told (λ o. get occ_cmp members.now o) unit export.now.name occ) }
{
    let Some(new) = new_name(members, occ) else {
        return Ok(());
    };
    let old = Text::of(alloc, export.name.as_str())?;
    let new = new.clone()?;
    Ok(changes.push(ExportChange { unit, old, new })?)
}

/// The new name of what stands at a place.
fn new_name(members: &Members, occ: Option<Occ>) -> Option<&Text>
    ensures { option_map (λ name. name.now) result ≡ named_at (λ o. get occ_cmp members.now o) occ }
{
    match occ {
        Some(occ) => members.get(&occ),
        None => None,
    }
}

/// Where the name stands that is so many from the end.
fn external_occ(names: &[NameUse], behind: usize) -> Option<Occ>
    ensures { result ≡ occ_from_end names.now behind }
{
    if behind == 0 || behind > names.len() {
        return None;
    }
    names[names.len() - behind].target.occ
}
