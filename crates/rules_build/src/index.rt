//! What variables stand for, by number, so that an identifier is not compared with each of many.
ghost use Rattle.std.specs.Prelude.{◌≡◌, ◌||◌, ◌&&◌, ℕ, nat_eq, List, [], ◌∷◌, Some, IfOk, OnOk};
ghost use Rattle.std.specs.List.{list_any};
ghost use Rattle.std.specs.BTreeSet.{contains};
ghost use Rattle.std.specs.Ordering.{nat_cmp};
ghost use Rattle.scheme_model.specs.Matching.{Binding as ModelBinding};
ghost use Rattle.scheme_model.specs.Building.{value_of};
ghost use Rattle.scheme_model.specs.Ident.{Ident as Identifier, same_ident};
ghost use Rattle.syntax_tree.specs.Names.{AreToldApart};
ghost use Rattle.syntax_tree.specs.Macros.{IsIdent};
ghost use Rattle.syntax_tree.specs.declared.trees.Work.{Work};
ghost use Rattle.syntax_tree.specs.declared.trees.table.Region.{Region};
ghost use Rattle.rules_build.specs.Values.{AreBound, IsFound, IsIndexOf, AreMapsOf, ArePlaces, places_at, has_at, value_by_number, values_by_number};
ghost use Rattle.rules_build.specs.declared.values.Value.{Value as AnyValue};
ghost use Rattle.rules_build.specs.declared.values.Bound.{Bound as AnyBound};

use crate::values::{Bound, Value};
use ls_base::{Mem, Memory};
use std::alloc::Global;
use std::collections::{BTreeMap, BTreeSet};
use syntax_tree::symbols::IdNo;

/// The most bindings that are looked through one after the other: maps of so few would cost more.
const FEW: usize = 8;

/// Bindings, by which a variable is found: a few as they stand, or maps of them.
#[derive(Drop)]
pub enum Index<'a> {
    Few(&'a [Bound<'a>]),
    Many(Maps<'a>),
}

/// Variables with what they stand for, and the places of their bindings. Of a variable with several bindings the first says what
/// it stands for.
#[derive(Drop)]
pub struct Maps<'a> {
    pub values: BTreeMap<IdNo, Value<'a>>,
    pub places: BTreeMap<IdNo, Vec<usize>>,
}

/// The index of bindings.
pub fn index_of<'a>(alloc: Global, bounds: &'a [Bound<'a>]) -> Mem<Index<'a>>
    ensures { IfOk result (λ index. IsIndexOf bounds.now index) }
{
    if bounds.len() <= FEW {
        return Ok(Index::Few(bounds));
    }
    Ok(Index::Many(maps_of(alloc, bounds)?))
}

/// The variables of bindings. It goes from the last binding to the first, so that the first stays.
fn maps_of<'a>(alloc: Global, bounds: &[Bound<'a>]) -> Mem<Maps<'a>>
    ensures { IfOk result (λ maps. AreMapsOf bounds.now maps) }
{
    let mut values = BTreeMap::new(alloc);
    let count = bounds.len();
    for behind in 0..count {
        let bound = bounds[count - 1 - behind];
        values.insert(bound.variable, bound.value)?;
    }
    let places = places_of_all(alloc, bounds)?;
    Ok(Maps { values, places })
}

/// The places of the bindings of each variable.
fn places_of_all(alloc: Global, bounds: &[Bound]) -> Mem<BTreeMap<IdNo, Vec<usize>>>
    ensures { IfOk result (λ places. ArePlaces bounds.now places) }
{
    let mut places = BTreeMap::new(alloc);
    for k in 0..bounds.len() {
        add_place(alloc, &mut places, bounds[k].variable, k)?;
    }
    Ok(places)
}

/// Adds a place of a variable.
fn add_place(
    alloc: Global,
    places: &mut BTreeMap<IdNo, Vec<usize>>,
    variable: IdNo,
    place: usize,
) -> Mem<()>
    ensures { (n q : ℕ) → OnOk result (list_any (nat_eq q) (places_at places.new n) ≡ (list_any (nat_eq q) (places_at places.old n) || (nat_eq variable n && nat_eq q place))) }
{
    let mut those = match places.remove(&variable) {
        None => Vec::new(alloc),
        Some(those) => those,
    };
    those.push(place)?;
    places.insert(variable, those)?;
    Ok(())
}

/// What an identifier stands for, if it is one of these variables.
pub fn value_of<'a>(index: &Index<'a>, id: IdNo) -> Option<Value<'a>>
    ensures { (work : Work) (region : Region) (bounds : List AnyBound) (ms : List (ModelBinding Identifier Identifier)) (i : Identifier) →
        AreToldApart work.symbols.idents → IsIdent work.symbols id i → IsIndexOf bounds index.now → AreBound work region bounds ms →
        IsFound work region result (value_of same_ident ms i) }
{
    match index {
        Index::Few(bounds) => first_of(bounds, id),
        Index::Many(maps) => maps.values.get(&id).copied(),
    }
}

/// What the first of some bindings that is of this variable says.
fn first_of<'a>(bounds: &[Bound<'a>], id: IdNo) -> Option<Value<'a>>
    ensures { result ≡ value_by_number bounds.now id }
{
    for bound in bounds {
        if bound.variable == id {
            return Some(bound.value);
        }
    }
    None
}

/// What the only binding of a variable says, where there are few.
pub fn only_value<'a>(index: &Index<'a>, id: IdNo) -> Option<Value<'a>>
    ensures { (bounds : List AnyBound) (v : AnyValue) → IsIndexOf bounds index.now → result ≡ Some v → values_by_number bounds id ≡ v ∷ [] }
{
    match index {
        Index::Few(bounds) => only_of(bounds, id),
        Index::Many(_) => None,
    }
}

/// What the only one of some bindings that is of this variable says.
fn only_of<'a>(bounds: &[Bound<'a>], id: IdNo) -> Option<Value<'a>>
    ensures { (v : AnyValue) → result ≡ Some v → values_by_number bounds.now id ≡ v ∷ [] }
{
    let mut only = None;
    for bound in bounds {
        if bound.variable == id {
            if only.is_some() {
                return None;
            }
            only = Some(bound.value);
        }
    }
    only
}

/// The places that a map has of some variables.
pub fn places_in(
    alloc: Global,
    all: &BTreeMap<IdNo, Vec<usize>>,
    names: &BTreeSet<IdNo>,
) -> Mem<BTreeSet<usize>>
    ensures { (bounds : List AnyBound) (q : ℕ) → ArePlaces bounds all.now →
        IfOk result (λ places. contains nat_cmp places q ≡ has_at (contains nat_cmp names.now) bounds q) }
{
    let mut places = BTreeSet::new(alloc);
    for name in names {
        if let Some(those) = all.get(name) {
            add_places(those.as_slice(), &mut places)?;
        }
    }
    Ok(places)
}

/// Adds places to others.
fn add_places(those: &[usize], places: &mut BTreeSet<usize>) -> Mem<()>
    ensures { (q : ℕ) → OnOk result (contains nat_cmp places.new q ≡ (contains nat_cmp places.old q || list_any (nat_eq q) those.now)) }
{
    for place in those {
        places.insert(*place)?;
    }
    Ok(())
}
