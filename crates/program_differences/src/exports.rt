//! The exports of a unit of two programs, compared by their names, with those that are asked to change, and by their meanings.
ghost use Rattle.std.specs.Prelude.{◌≡◌, ◌==◌, ◌++◌, ◌<◌, ℕ, suc, List, [], ◌∷◌, length, Bool, Option, Some, None, if◌then◌else◌, IfOk, OnOk};
ghost use Rattle.std.specs.BTreeMap.{get_by_text};
ghost use Rattle.std.specs.Str.{bytes_eq};
ghost use Rattle.scheme_model.specs.declared.Occ.{Occ as AnyOcc};
ghost use Rattle.scheme_model.specs.Entries.{Entry as ModelEntry};
ghost use Rattle.scheme_model.specs.Meaning.{Meaning as ModelMeaning};
ghost use Rattle.scheme_model.specs.Substitution.{Table};
ghost use Rattle.scheme_model.specs.IncludedUnits.{Placed};
ghost use Rattle.scheme_model.specs.Program.{ExportSpec, UnitResult, Program as ModelProgram};
ghost use Rattle.scheme_model.specs.ProgramArrows.{program_table};
ghost use Rattle.scheme_model.specs.Requirements.{LibraryName};
ghost use Rattle.rename_model.specs.Walks.{AtExport, Seen as ModelSeen, Shown as ModelShown, meaning_seen, point};
ghost use Rattle.rename_model.specs.SameProgram.{agree, export_points, exports_at, external_occ as model_external, name_asked as model_asked};
ghost use Rattle.rename_model.specs.Difference.{first_apart};
ghost use Rattle.syntax_tree.specs.Names.{Names};
ghost use Rattle.syntax_tree.specs.Meant.{IsGivenMeaning, IsEntry, AreEntries};
ghost use Rattle.core_tree.specs.declared.units.NameUse.{NameUse as AnyName};
ghost use Rattle.alpha_equal.specs.Points.{IsShown, IsTold, ArePair};
ghost use Rattle.alpha_equal.specs.Filled.{KnowsNumbers};
ghost use Rattle.program_differences.specs.Exported.{changes_as, first_given, asked_at, name_or, AreGiven};
ghost use Rattle.program_differences.specs.Both.{BothStand, AreBoth, AreNumbered};

use crate::both::{Both, Programs};
use crate::plan::ExportChange;
use alpha_equal::compare::agrees;
use alpha_equal::meanings::seen_of;
use alpha_equal::points::{Pair, Shown, Spot, Told};
use core_tree::units::NameUse;
use ls_base::{Mem, Text};
use scheme_model::Occ;
use std::alloc::Global;
use std::collections::{BTreeMap, BTreeSet};
use syntax_tree::meaning::Meaning;
use syntax_tree::texts::same_text;
use syntax_tree::units::Entry;

// ---- names

/// Notes the name that an export is asked to have. Of several for one name the first counts.
fn ask(alloc: Global, change: &ExportChange, asked: &mut BTreeMap<String, Text>) -> Mem<()>
    ensures { OnOk result ((s : List ℕ) → get_by_text asked.new s ≡ first_given (get_by_text asked.old s) (if bytes_eq change.now.old s then Some change.now.new else None)) }
{
    let name = change.old.as_str();
    if asked.contains_key(name) {
        return Ok(());
    }
    asked.insert(
        String::from_str(alloc, name)?,
        Text::of(alloc, change.new.as_str())?,
    )?;
    Ok(())
}

/// Notes it for an export of a unit.
fn ask_in(
    alloc: Global,
    unit: usize,
    change: &ExportChange,
    asked: &mut BTreeMap<String, Text>,
) -> Mem<()>
    ensures { OnOk result ((s : List ℕ) → get_by_text asked.new s ≡ first_given (get_by_text asked.old s) (asked_at unit (change.now ∷ []) s)) }
{
    if change.unit as usize != unit {
        return Ok(());
    }
    Ok(ask(alloc, change, asked)?)
}

/// The names that the exports of a unit are asked to have, by the names that they have.
fn asked_in(alloc: Global, unit: usize, changes: &[ExportChange]) -> Mem<BTreeMap<String, Text>>
    ensures { IfOk result (λ asked. (s : List ℕ) → get_by_text asked s ≡ asked_at unit changes.now s) }
{
    let mut asked = BTreeMap::new(alloc);
    for change in changes {
        ask_in(alloc, unit, change, &mut asked)?;
    }
    Ok(asked)
}

/// Whether a name is the one that an export is asked to have.
fn is_asked(asked: &BTreeMap<String, Text>, old: &str, new: &str) -> bool
    ensures { result ≡ bytes_eq (name_or (get_by_text asked.now old.now) old.now) new.now }
{
    match asked.get(old) {
        None => same_text(old, new),
        Some(name) => same_text(name.as_str(), new),
    }
}

// ---- exports

/// Where the name stands that is so many from the end.
fn external_occ(names: &[NameUse], behind: usize) -> Option<Occ>
    ensures { (front : List AnyName) (n : AnyName) (last : List AnyName) → names.now ≡ front ++ n ∷ last → behind ≡ suc (length last) → result ≡ n.target.occ }
{
    if behind == 0 || behind > names.len() {
        return None;
    }
    names[names.len() - behind].target.occ
}

/// What is told of an export.
fn in_export<'a>(occ: Option<Occ>, shown: Shown<'a>) -> Told<'a>
    ensures { (names : Names) (unit form : ℕ) (s : ModelSeen) (t : ModelShown) → IsShown names unit form shown.entry t → IsTold names unit form result (point AtExport s occ t) }
{
    Told {
        spot: Spot::Export,
        occ,
        shown,
    }
}

/// Whether two meanings that units give are the same in both programs.
fn mean_the_same(alloc: Global, programs: &Programs<'_>, old: Meaning, new: Meaning) -> bool
    requires { (m n : ModelMeaning) × IsGivenMeaning programs.now.work.now.symbols old m × IsGivenMeaning programs.now.work.now.symbols new n }
    ensures { (p q : ModelProgram) (m n : ModelMeaning) → AreNumbered programs.now p q → IsGivenMeaning programs.now.work.now.symbols old m →
        IsGivenMeaning programs.now.work.now.symbols new n → result ≡ agree [] (meaning_seen (program_table p) m) (meaning_seen (program_table q) n) }
{
    let none = BTreeSet::new(alloc);
    let before = seen_of(programs.work, &programs.old_numbers, old);
    let after = seen_of(programs.work, &programs.new_numbers, new);
    agrees(programs.work, before, after, &none)
}

/// Two exports that aren't the same, by their names and then by their meanings.
fn export_apart<'a>(
    alloc: Global,
    programs: &Programs<'_>,
    asked: &BTreeMap<String, Text>,
    old: &'a Entry,
    before: Option<Occ>,
    new: &'a Entry,
    after: Option<Occ>,
) -> Option<Pair<'a>>
    requires { (e d : ModelEntry) × IsEntry programs.now.work.now.symbols old.now e × IsEntry programs.now.work.now.symbols new.now d }
    ensures { (p q : ModelProgram) (live : Option AnyOcc → Bool) (asks : List ℕ → List ℕ) (xs ys : List ExportSpec) (e d : ModelEntry) (unit : ℕ) → AreNumbered programs.now p q →
        ((s : List ℕ) → name_or (get_by_text asked.now s) s ≡ asks s) → IsEntry programs.now.work.now.symbols old.now e → IsEntry programs.now.work.now.symbols new.now d →
        before ≡ model_external xs e.name → after ≡ model_external ys d.name → ArePair programs.now.work.now.symbols unit 0 result
        (first_apart live [] (export_points (program_table p) asks xs e) (export_points (program_table q) (λ s. s) ys d)) }
{
    if !is_asked(asked, old.name.as_str(), new.name.as_str()) {
        return Some(Pair {
            old: in_export(before, Shown::Text(old.name.as_str())),
            new: in_export(after, Shown::Text(new.name.as_str())),
        });
    }
    if !mean_the_same(alloc, programs, old.meaning, new.meaning) {
        return Some(Pair {
            old: in_export(before, Shown::Meaning(old.meaning)),
            new: in_export(after, Shown::Meaning(new.meaning)),
        });
    }
    None
}

/// The first two exports of a unit that aren't the same. The last names of a unit are the external names of its exports.
pub fn exports_apart<'a>(
    alloc: Global,
    programs: &Programs<'_>,
    changes: &[ExportChange],
    both: Both<'a>,
) -> Mem<Option<Pair<'a>>>
    requires { AreBoth programs.now both }
    ensures { (text : LibraryName → List ℕ) (uris : List (List ℕ)) (before after : List Placed) (p q : ModelProgram) (r s : UnitResult) (live : Option AnyOcc → Bool) →
        BothStand text uris before after programs.now p q both.entry r s → AreNumbered programs.now p q → AreGiven p r → AreGiven q s →
        IfOk result (λ found. ArePair programs.now.work.now.symbols both.entry.place 0 found (first_apart live []
        (exports_at (program_table p) (model_asked (changes_as changes.now) both.entry.place) (Some r)) (exports_at (program_table q) (λ s. s) (Some s)))) }
{
    let old = both.old.exports.as_slice();
    let new = both.new.exports.as_slice();
    if old.len() != new.len() {
        let told = in_export(None, Shown::Nothing);
        return Ok(Some(Pair {
            old: told,
            new: told,
        }));
    }
    let asked = asked_in(alloc, both.place, changes)?;
    for k in 0..old.len() {
        let before = external_occ(both.old.names.as_slice(), old.len() - k);
        let after = external_occ(both.new.names.as_slice(), new.len() - k);
        let pair = export_apart(alloc, programs, &asked, &old[k], before, &new[k], after);
        if pair.is_some() {
            return Ok(pair);
        }
    }
    Ok(None)
}
