//! The variables that stand in a part of a template.
ghost use Rattle.std.specs.Prelude.{◌≡◌, ◌||◌, ◌<◌, ℕ, true, length, List, IfOk, OnOk};
ghost use Rattle.std.specs.BTreeSet.{contains, IsOrdered};
ghost use Rattle.std.specs.Ordering.{nat_cmp};
ghost use Rattle.scheme_model.specs.Trees.{Tree as ModelTree, Trees};
ghost use Rattle.scheme_model.specs.Matching.{Binding as ModelBinding};
ghost use Rattle.scheme_model.specs.Building.{stands_in, stands_among, used_in};
ghost use Rattle.scheme_model.specs.Ident.{Ident as Identifier, same_ident};
ghost use Rattle.syntax_tree.specs.Looks.{StandsWithin, PartsWithin, PartsStand};
ghost use Rattle.syntax_tree.specs.Macros.{IsIdent};
ghost use Rattle.syntax_tree.specs.Works.{StandsFor};
ghost use Rattle.syntax_tree.specs.declared.trees.table.Region.{Region};
ghost use Rattle.rules_build.specs.Values.{AreBound, AreMapsOf, IsIndexOf, bounds_at};

use crate::index::{Index, Maps, places_in};
use crate::values::Bound;
use ls_base::{Mem, Memory};
use std::alloc::Global;
use std::collections::BTreeSet;
use syntax_tree::look::{Look, look_at};
use syntax_tree::symbols::IdNo;
use syntax_tree::trees::{Tree, Work};

/// Those of some variables that stand in a template that is at most `left` nodes deep.
pub fn used_in<'a>(
    alloc: Global,
    work: &Work,
    template: Tree,
    left: u32,
    bounds: &[Bound<'a>],
    index: &Index,
) -> Mem<Vec<Bound<'a>>>
    requires template { StandsWithin work.now template left }
    requires index { IsIndexOf bounds.now index.now }
    ensures { (region : Region) (t : ModelTree Identifier) (ms : List (ModelBinding Identifier Identifier)) →
        StandsFor work.now template t → AreBound work.now region bounds.now ms →
        IfOk result (λ used. AreBound work.now region used.items (used_in same_ident t ms)) }
{
    match index {
        Index::Few(_) => Ok(used_of_few(alloc, work, template, left, bounds)?),
        Index::Many(maps) => Ok(used_of_many(alloc, work, template, left, bounds, maps)?),
    }
}

/// The same of a few: each is looked for in the template.
fn used_of_few<'a>(
    alloc: Global,
    work: &Work,
    template: Tree,
    left: u32,
    bounds: &[Bound<'a>],
) -> Mem<Vec<Bound<'a>>>
    requires { StandsWithin work.now template left }
    ensures { (region : Region) (t : ModelTree Identifier) (ms : List (ModelBinding Identifier Identifier)) →
        StandsFor work.now template t → AreBound work.now region bounds.now ms →
        IfOk result (λ used. AreBound work.now region used.items (used_in same_ident t ms)) }
{
    let mut used = Vec::with_capacity(alloc, bounds.len())?;
    for bound in bounds {
        if stands(work, template, left, bound.variable) {
            used.push(*bound)?;
        }
    }
    Ok(used)
}

/// Whether an identifier stands in a template.
#[cycle(stands)]
fn stands(work: &Work, template: Tree, left: u32, id: IdNo) -> bool
    requires { StandsWithin work.now template left }
    ensures { (t : ModelTree Identifier) (i : Identifier) → StandsFor work.now template t → IsIdent work.now.symbols id i →
        result ≡ stands_in same_ident i t }
{
    work.symbols.told_apart();
    match look_at(work, template) {
        Look::Name(other) => other == id,
        Look::Atom(_) => false,
        Look::Vector(items) => any_stands(work, items, left - 1, id),
        Look::List(items, end) => {
            if any_stands(work, items, left - 1, id) {
                return true;
            }
            match end {
                None => false,
                Some(tail) => stands(work, tail, left - 1, id),
            }
        }
    }
}

/// Whether an identifier stands in one of some templates.
#[cycle(stands)]
fn any_stands(work: &Work, items: &[Tree], left: u32, id: IdNo) -> bool
    requires { PartsWithin work.now items.now left }
    ensures { (ts : Trees Identifier) (i : Identifier) → PartsStand work.now items.now ts → IsIdent work.now.symbols id i →
        result ≡ stands_among same_ident i ts }
{
    for item in items {
        if stands(work, *item, left, id) {
            return true;
        }
    }
    false
}

/// The same of many: the identifiers of the template are looked up.
fn used_of_many<'a>(
    alloc: Global,
    work: &Work,
    template: Tree,
    left: u32,
    bounds: &[Bound<'a>],
    maps: &Maps,
) -> Mem<Vec<Bound<'a>>>
    requires template { StandsWithin work.now template left }
    requires maps { AreMapsOf bounds.now maps.now }
    ensures { (region : Region) (t : ModelTree Identifier) (ms : List (ModelBinding Identifier Identifier)) →
        StandsFor work.now template t → AreBound work.now region bounds.now ms →
        IfOk result (λ used. AreBound work.now region used.items (used_in same_ident t ms)) }
{
    work.symbols.told_apart();
    let mut names = BTreeSet::new(alloc);
    collect(work, template, left, &mut names)?;
    let places = places_in(alloc, &maps.places, &names)?;
    Ok(at_places(alloc, bounds, &places)?)
}

/// The bindings at these places, in order.
fn at_places<'a>(
    alloc: Global,
    bounds: &[Bound<'a>],
    places: &BTreeSet<usize>,
) -> Mem<Vec<Bound<'a>>>
    requires { (q : ℕ) → contains nat_cmp places.now q ≡ true → q < length bounds.now }
    ensures used { IfOk result (λ used. used.items ≡ bounds_at bounds.now places.now.keys) }
    ensures ordered { OnOk result (IsOrdered nat_cmp places.now) }
{
    let mut used = Vec::new(alloc);
    for place in places {
        used.push(bounds[*place])?;
    }
    Ok(used)
}

/// Adds the identifiers that stand in a template.
#[cycle(collect)]
fn collect(work: &Work, template: Tree, left: u32, names: &mut BTreeSet<IdNo>) -> Mem<()>
    requires { StandsWithin work.now template left }
    ensures { (t : ModelTree Identifier) (n : ℕ) (i : Identifier) → StandsFor work.now template t → IsIdent work.now.symbols n i →
        OnOk result (contains nat_cmp names.new n ≡ (contains nat_cmp names.old n || stands_in same_ident i t)) }
{
    work.symbols.told_apart();
    match look_at(work, template) {
        Look::Name(id) => {
            names.insert(id)?;
            Ok(())
        }
        Look::Atom(_) => Ok(()),
        Look::Vector(items) => Ok(collect_all(work, items, left - 1, names)?),
        Look::List(items, end) => {
            collect_all(work, items, left - 1, names)?;
            match end {
                None => Ok(()),
                Some(tail) => Ok(collect(work, tail, left - 1, names)?),
            }
        }
    }
}

/// Adds the identifiers that stand in some templates.
#[cycle(collect)]
fn collect_all(work: &Work, items: &[Tree], left: u32, names: &mut BTreeSet<IdNo>) -> Mem<()>
    requires { PartsWithin work.now items.now left }
    ensures { (ts : Trees Identifier) (n : ℕ) (i : Identifier) → PartsStand work.now items.now ts → IsIdent work.now.symbols n i →
        OnOk result (contains nat_cmp names.new n ≡ (contains nat_cmp names.old n || stands_among same_ident i ts)) }
{
    for item in items {
        collect(work, *item, left, names)?;
    }
    Ok(())
}
