//! Units of two programs, compared: their Errors, their forms and their exports.
ghost use Rattle.std.specs.Prelude.{◌≡◌, ℕ, List, [], ◌∷◌, length, max, Option, Some, Bool, IfOk};
ghost use Rattle.std.specs.List.{flat_map};
ghost use Rattle.scheme_model.specs.declared.Occ.{Occ as AnyOcc};
ghost use Rattle.scheme_model.specs.Cores.{Parts};
ghost use Rattle.scheme_model.specs.IncludedUnits.{Placed};
ghost use Rattle.scheme_model.specs.Program.{UnitResult, Program as ModelProgram, result_at};
ghost use Rattle.scheme_model.specs.ProgramArrows.{program_table};
ghost use Rattle.scheme_model.specs.Requirements.{LibraryName};
ghost use Rattle.rename_model.specs.Walks.{form_points};
ghost use Rattle.rename_model.specs.SameProgram.{form_stretches, form_count, unit_stretches};
ghost use Rattle.rename_model.specs.Difference.{first_apart as model_apart};
ghost use Rattle.program_leaves.specs.Placed.{unless_fault};
ghost use Rattle.program_differences.specs.Apart.{at_form, FindsFirst};
ghost use Rattle.program_differences.specs.Both.{BothStand, AreBoth, AreNumbered, ProgramsStand, AreStanding, ItemsStand, AreItems};
ghost use Rattle.alpha_equal.specs.Compared.{TellsLive};
ghost use Rattle.program_differences.specs.Exported.{changes_as, AreGiven, ExportsAreGiven};
ghost use Rattle.program_differences.specs.Listed.{AreAlike};
ghost use Rattle.alpha_equal.specs.Points.{ArePair};

use crate::both::{Both, Programs};
use crate::exports::exports_apart;
use crate::forms::points_of;
use crate::listed::{Apart, error_apart};
use crate::plan::ExportChange;
use alpha_equal::compare::first_apart;
use alpha_equal::points::Pair;
use core_tree::units::{ExpandedItem, UnitForm};
use ls_base::Mem;
use program_leaves::sight::Sight;
use std::alloc::Global;

/// Two points with the form of a unit that they stand in.
fn placed<'a>(unit: usize, form: usize, pair: Option<Pair<'a>>) -> Option<Apart<'a>>
    ensures { result ≡ at_form unit form pair.entry }
{
    match pair {
        None => None,
        Some(pair) => Some(Apart { unit, form, pair }),
    }
}

// ---- forms

/// The items of a form, of which one that is broken has none.
fn unbroken(form: &UnitForm) -> &[ExpandedItem]
    ensures { result.now ≡ unless_fault form.now.fault form.now.items }
{
    match &form.fault {
        None => form.items.as_slice(),
        Some(_) => &[],
    }
}

/// The first two points of a form that don't agree.
fn form_apart<'a>(
    alloc: Global,
    programs: &Programs<'_>,
    live: &Option<Sight<'_>>,
    old: &'a [ExpandedItem],
    new: &'a [ExpandedItem],
) -> Mem<Option<Pair<'a>>>
    requires old { AreItems programs.now.work.now old.now }
    requires new { AreItems programs.now.work.now new.now }
    ensures { (p q : ModelProgram) (unit form : ℕ) (is_live : Option AnyOcc → Bool) (ps qs : Parts) → AreNumbered programs.now p q → TellsLive live.now is_live →
        ItemsStand programs.now.work.now unit form old.now ps → ItemsStand programs.now.work.now unit form new.now qs →
        IfOk result (λ found. ArePair programs.now.work.now.symbols unit form found (model_apart is_live [] (form_points (program_table p) ps) (form_points (program_table q) qs))) }
{
    let before = points_of(alloc, programs.work, &programs.old_numbers, old)?;
    let after = points_of(alloc, programs.work, &programs.new_numbers, new)?;
    Ok(first_apart(
        alloc,
        programs.work,
        live,
        before.as_slice(),
        after.as_slice(),
    )?)
}

/// The first form of a unit that isn't the same.
fn forms_apart<'a>(
    alloc: Global,
    programs: &Programs<'_>,
    live: &Option<Sight<'_>>,
    both: Both<'a>,
) -> Mem<Option<Apart<'a>>>
    requires { AreBoth programs.now both }
    ensures { (text : LibraryName → List ℕ) (uris : List (List ℕ)) (before after : List Placed) (p q : ModelProgram) (r s : UnitResult) (is_live : Option AnyOcc → Bool) →
        BothStand text uris before after programs.now p q both.entry r s → AreNumbered programs.now p q → TellsLive live.now is_live →
        IfOk result (λ found. FindsFirst programs.now.work.now.symbols is_live
        (form_stretches (program_table p) (program_table q) both.entry.place (Some r) (Some s) 0 (max (form_count (Some r)) (form_count (Some s)))) found) }
{
    let old = both.old.forms.as_slice();
    let new = both.new.forms.as_slice();
    for form in 0..old.len() {
        let pair = form_apart(
            alloc,
            programs,
            live,
            unbroken(&old[form]),
            unbroken(&new[form]),
        )?;
        if pair.is_some() {
            return Ok(placed(both.place, form, pair));
        }
    }
    Ok(None)
}

// ---- units

/// The first place at which a unit isn't the same: its Errors, its forms, and then its exports.
fn unit_apart<'a>(
    alloc: Global,
    programs: &Programs<'_>,
    live: &Option<Sight<'_>>,
    changes: &[ExportChange],
    both: Both<'a>,
) -> Mem<Option<Apart<'a>>>
    requires { AreBoth programs.now both }
    ensures { (text : LibraryName → List ℕ) (uris : List (List ℕ)) (before after : List Placed) (p q : ModelProgram) (r s : UnitResult) (is_live : Option AnyOcc → Bool) →
        BothStand text uris before after programs.now p q both.entry r s → AreNumbered programs.now p q → AreGiven p r → AreGiven q s → TellsLive live.now is_live →
        IfOk result (λ found. FindsFirst programs.now.work.now.symbols is_live (unit_stretches p q (changes_as changes.now) both.entry.place (Some r) (Some s)) found) }
{
    let error = error_apart(both.place, both.new.errors.as_slice());
    if error.is_some() {
        return Ok(error);
    }
    let form = forms_apart(alloc, programs, live, both)?;
    if form.is_some() {
        return Ok(form);
    }
    let pair = exports_apart(alloc, programs, changes, both)?;
    Ok(placed(both.place, 0, pair))
}

/// The first place at which the unit at a place isn't the same, where there is one.
fn unit_apart_at<'a>(
    alloc: Global,
    programs: &Programs<'a>,
    live: &Option<Sight<'_>>,
    changes: &[ExportChange],
    place: usize,
) -> Mem<Option<Apart<'a>>>
    requires stand { AreStanding programs.now }
    requires alike { AreAlike programs.now.old.now.units programs.now.new.now.units }
    ensures { (text : LibraryName → List ℕ) (uris : List (List ℕ)) (before after : List Placed) (p q : ModelProgram) (is_live : Option AnyOcc → Bool) →
        ProgramsStand text uris before after programs.now p q → AreNumbered programs.now p q → ExportsAreGiven p → ExportsAreGiven q → TellsLive live.now is_live →
        IfOk result (λ found. FindsFirst programs.now.work.now.symbols is_live (unit_stretches p q (changes_as changes.now) place (result_at p.units place) (result_at q.units place)) found) }
{
    let old = programs.old.units.as_slice();
    let new = programs.new.units.as_slice();
    if place >= old.len() {
        return Ok(None);
    }
    let both = Both {
        place,
        old: &old[place],
        new: &new[place],
    };
    Ok(unit_apart(alloc, programs, live, changes, both)?)
}

/// The first place at which one of these units isn't the same.
pub fn units_apart<'a>(
    alloc: Global,
    programs: &Programs<'a>,
    live: &Option<Sight<'_>>,
    changes: &[ExportChange],
    reach: &[usize],
) -> Mem<Option<Apart<'a>>>
    requires stand { AreStanding programs.now }
    requires alike { AreAlike programs.now.old.now.units programs.now.new.now.units }
    ensures { (text : LibraryName → List ℕ) (uris : List (List ℕ)) (before after : List Placed) (p q : ModelProgram) (is_live : Option AnyOcc → Bool) →
        ProgramsStand text uris before after programs.now p q → AreNumbered programs.now p q → ExportsAreGiven p → ExportsAreGiven q → TellsLive live.now is_live →
        IfOk result (λ found. FindsFirst programs.now.work.now.symbols is_live
        (flat_map (λ unit. unit_stretches p q (changes_as changes.now) unit (result_at p.units unit) (result_at q.units unit)) reach.now) found) }
{
    for place in reach {
        let found = unit_apart_at(alloc, programs, live, changes, *place)?;
        if found.is_some() {
            return Ok(found);
        }
    }
    Ok(None)
}
