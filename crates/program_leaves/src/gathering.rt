//! The leaves of a program, the keywords and literals that its forms met, and where its locals and definitions stand.
ghost use Rattle.std.specs.Prelude.{◌≡◌, ◌++◌, map, Some, None, if◌then◌else◌, IfOk, OnOk};
ghost use Rattle.std.specs.BTreeMap.{get};
ghost use Rattle.program_leaves.specs.Leaves.{seen_of, items_seen};
ghost use Rattle.program_leaves.specs.Placed.{placed_of, at_form, unless_fault, forms_seen, units_seen, use_of, uses_at, macro_targets, trace_targets, forms_met, units_met, local_cmp, bound_in, bound_or, first_or, same_local, local_in, global_cmp, given_by, forms_given, given_after, definition_in};
ghost use Rattle.program_leaves.specs.declared.sight.LocalNo.{LocalNo as AnyLocal};
ghost use Rattle.program_leaves.specs.declared.sight.GlobalNo.{GlobalNo as AnyGlobal};

use crate::leaves::{Leaf, add_form};
use crate::sight::{FormNo, GlobalNo, LocalNo, PlacedLeaf, PlacedTarget};
use core_tree::cores::{Binder, Target};
use core_tree::traces::{MacroUse, Trace};
use core_tree::units::{Program, UnitForm};
use ls_base::Mem;
use scheme_model::Occ;
use std::alloc::Global;
use std::collections::BTreeMap;

// ---- leaves

/// Adds leaves of a form.
fn add_placed<'a>(at: FormNo, found: &[Leaf<'a>], leaves: &mut Vec<PlacedLeaf<'a>>) -> Mem<()>
    ensures { OnOk result (map placed_of leaves.new.items
        ≡ map placed_of leaves.old.items ++ at_form at.unit at.form (map seen_of found.now)) }
{
    for leaf in found {
        leaves.push(PlacedLeaf { at, leaf: *leaf })?;
    }
    Ok(())
}

/// Adds the leaves of a form, unless it is broken.
fn add_form_leaves<'a>(
    alloc: Global,
    at: FormNo,
    form: &'a UnitForm,
    leaves: &mut Vec<PlacedLeaf<'a>>,
) -> Mem<()>
    ensures { OnOk result (map placed_of leaves.new.items
        ≡ map placed_of leaves.old.items ++ at_form at.unit at.form (unless_fault form.now.fault (items_seen form.now.items))) }
{
    match form.fault {
        Some(_) => Ok(()),
        None => {
            let mut found = Vec::new(alloc);
            add_form(form, &mut found)?;
            add_placed(at, found.as_slice(), leaves)
        }
    }
}

/// Adds the leaves of the forms of a unit.
fn add_unit_leaves<'a>(
    alloc: Global,
    unit: usize,
    forms: &'a [UnitForm],
    leaves: &mut Vec<PlacedLeaf<'a>>,
) -> Mem<()>
    ensures { OnOk result (map placed_of leaves.new.items ≡ map placed_of leaves.old.items ++ forms_seen unit 0 forms.now) }
{
    for place in 0..forms.len() {
        let at = FormNo { unit, form: place };
        add_form_leaves(alloc, at, &forms[place], leaves)?;
    }
    Ok(())
}

/// The leaves of a program.
pub fn leaves_of(alloc: Global, program: &Program) -> Mem<Vec<PlacedLeaf<'_>>>
    ensures { IfOk result (λ leaves. map placed_of leaves.items ≡ units_seen 0 program.now.units) }
{
    let units = program.units.as_slice();
    let mut leaves = Vec::new(alloc);
    for place in 0..units.len() {
        add_unit_leaves(alloc, place, units[place].forms.as_slice(), &mut leaves)?;
    }
    Ok(leaves)
}

// ---- keywords and matched literals

/// Adds uses in a form.
fn add_targets(at: FormNo, found: &[Target], met: &mut Vec<PlacedTarget>) -> Mem<()>
    ensures { OnOk result (map use_of met.new.items ≡ map use_of met.old.items ++ uses_at at.unit at.form found.now) }
{
    for target in found {
        met.push(PlacedTarget {
            at,
            target: *target,
        })?;
    }
    Ok(())
}

/// Adds the keywords of macro uses, and the literals that they met.
fn add_uses(at: FormNo, uses: &[MacroUse], met: &mut Vec<PlacedTarget>) -> Mem<()>
    ensures { OnOk result (map use_of met.new.items
        ≡ map use_of met.old.items ++ uses_at at.unit at.form (macro_targets uses.now)) }
{
    for macro_use in uses {
        met.push(PlacedTarget {
            at,
            target: macro_use.keyword,
        })?;
        add_targets(at, macro_use.literals.as_slice(), met)?;
    }
    Ok(())
}

/// Adds what the expansion of a form met.
fn add_trace(at: FormNo, trace: &Trace, met: &mut Vec<PlacedTarget>) -> Mem<()>
    ensures { OnOk result (map use_of met.new.items
        ≡ map use_of met.old.items ++ uses_at at.unit at.form (trace_targets trace.now)) }
{
    add_targets(at, trace.keywords.as_slice(), met)?;
    add_uses(at, trace.uses.as_slice(), met)
}

/// Adds what the expansion of a form met, unless it is broken.
fn add_form_met(at: FormNo, form: &UnitForm, met: &mut Vec<PlacedTarget>) -> Mem<()>
    ensures { OnOk result (map use_of met.new.items
        ≡ map use_of met.old.items ++ uses_at at.unit at.form (unless_fault form.now.fault (trace_targets form.now.trace))) }
{
    match form.fault {
        Some(_) => Ok(()),
        None => add_trace(at, &form.trace, met),
    }
}

/// Adds what the expansions of a unit's forms met.
fn add_unit_met(unit: usize, forms: &[UnitForm], met: &mut Vec<PlacedTarget>) -> Mem<()>
    ensures { OnOk result (map use_of met.new.items ≡ map use_of met.old.items ++ forms_met unit 0 forms.now) }
{
    for place in 0..forms.len() {
        add_form_met(FormNo { unit, form: place }, &forms[place], met)?;
    }
    Ok(())
}

/// The keywords and matched literals of the forms of a program.
pub fn met_in(alloc: Global, program: &Program) -> Mem<Vec<PlacedTarget>>
    ensures { IfOk result (λ met. map use_of met.items ≡ units_met 0 program.now.units) }
{
    let units = program.units.as_slice();
    let mut met = Vec::new(alloc);
    for place in 0..units.len() {
        add_unit_met(place, units[place].forms.as_slice(), &mut met)?;
    }
    Ok(met)
}

// ---- binders

/// The number of the local that a leaf binds, and where it stands.
fn bound_at(leaf: &PlacedLeaf<'_>) -> Option<(LocalNo, Option<Occ>)>
    ensures { result ≡ bound_in (placed_of leaf.now) }
{
    match leaf.leaf {
        Leaf::Binds { local, binder } => {
            if local {
                return Some((
                    LocalNo {
                        at: leaf.at,
                        count: binder.number,
                    },
                    binder.occ,
                ));
            }
            None
        }
        Leaf::Uses(_) => None,
        Leaf::Assigns(_) => None,
        Leaf::Quoted(_) => None,
        Leaf::Holed { .. } => None,
        Leaf::Defines(_) => None,
    }
}

/// Puts a place at a number that has none yet.
fn put_local(
    number: LocalNo,
    place: Option<Occ>,
    locals: &mut BTreeMap<LocalNo, Option<Occ>>,
) -> Mem<()>
    ensures { OnOk result ((k : AnyLocal) →
        get local_cmp locals.new k ≡ first_or (get local_cmp locals.old k) (if same_local number k then Some place else None)) }
{
    if locals.contains_key(&number) {
        return Ok(());
    }
    locals.insert(number, place)?;
    Ok(())
}

/// Adds the local that a leaf binds, where it binds one.
fn add_local(leaf: &PlacedLeaf<'_>, locals: &mut BTreeMap<LocalNo, Option<Occ>>) -> Mem<()>
    ensures { OnOk result ((k : AnyLocal) →
        get local_cmp locals.new k ≡ first_or (get local_cmp locals.old k) (bound_or (bound_in (placed_of leaf.now)) k None)) }
{
    match bound_at(leaf) {
        None => Ok(()),
        Some((number, place)) => put_local(number, place, locals),
    }
}

/// Where locals stand. Of binders with one number the first counts.
pub fn locals_of(alloc: Global, leaves: &[PlacedLeaf<'_>]) -> Mem<BTreeMap<LocalNo, Option<Occ>>>
    ensures { IfOk result (λ locals. (k : AnyLocal) → get local_cmp locals k ≡ local_in (map placed_of leaves.now) k) }
{
    let mut locals = BTreeMap::new(alloc);
    for leaf in leaves {
        add_local(leaf, &mut locals)?;
    }
    Ok(locals)
}

/// Adds what a form defines. Of definitions of one identifier the last counts.
fn add_definitions(
    unit: usize,
    binders: &[Binder],
    definitions: &mut BTreeMap<GlobalNo, Option<Occ>>,
) -> Mem<()>
    ensures { OnOk result ((k : AnyGlobal) →
        get global_cmp definitions.new k ≡ given_after (given_by unit binders.now) k (get global_cmp definitions.old k)) }
{
    for binder in binders {
        let number = GlobalNo {
            unit,
            ident: binder.ident,
        };
        definitions.insert(number, binder.occ)?;
    }
    Ok(())
}

/// Adds what a unit defines, also in broken forms.
fn add_unit_definitions(
    unit: usize,
    forms: &[UnitForm],
    definitions: &mut BTreeMap<GlobalNo, Option<Occ>>,
) -> Mem<()>
    ensures { OnOk result ((k : AnyGlobal) →
        get global_cmp definitions.new k ≡ given_after (forms_given unit forms.now) k (get global_cmp definitions.old k)) }
{
    for form in forms {
        add_definitions(unit, form.trace.definitions.as_slice(), definitions)?;
    }
    Ok(())
}

/// Where definitions stand.
pub fn definitions_of(alloc: Global, program: &Program) -> Mem<BTreeMap<GlobalNo, Option<Occ>>>
    ensures { IfOk result (λ definitions. (k : AnyGlobal) →
        get global_cmp definitions k ≡ definition_in program.now.units k) }
{
    let units = program.units.as_slice();
    let mut definitions = BTreeMap::new(alloc);
    for place in 0..units.len() {
        add_unit_definitions(place, units[place].forms.as_slice(), &mut definitions)?;
    }
    Ok(definitions)
}
