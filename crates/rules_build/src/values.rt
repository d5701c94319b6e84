//! What the variables of a pattern stand for at one place of the ellipses around a part of a template.
ghost use Rattle.std.specs.Prelude.{◌≡◌, ℕ, List, IfOk};
ghost use Rattle.scheme_model.specs.Matching.{Value as ModelValue, Binding as ModelBinding};
ghost use Rattle.scheme_model.specs.Building.{first_value, later_values, first_place, later_places, places_of, agree_with};
ghost use Rattle.scheme_model.specs.Ident.{Ident as Identifier};
ghost use Rattle.syntax_tree.specs.declared.trees.Work.{Work};
ghost use Rattle.syntax_tree.specs.declared.trees.table.Region.{Region};
ghost use Rattle.rules_build.specs.Values.{IsBoundTo, IsWorth, AreBound, AreManyBound, HasPlaces, Agrees};

use crate::BuildFault;
use ls_base::{Mem, Memory};
use std::alloc::Global;
use syntax_tree::rules::Binding;
use syntax_tree::symbols::IdNo;
use syntax_tree::trees::Tree;

/// What a variable stands for: a tree; the parts of a list from a place on, with its tail; or for each place of an ellipsis what
/// it stands for there.
#[derive(Clone, Copy)]
pub enum Value<'a> {
    One(Tree),
    Rest(Tree, u32),
    Many(&'a [Binding]),
}

/// A variable, and what it stands for.
#[derive(Clone, Copy)]
pub struct Bound<'a> {
    pub variable: IdNo,
    pub value: Value<'a>,
}

/// What a binding says.
#[inline(always)]
pub fn bound_by(binding: &Binding) -> Bound<'_>
    ensures { (work : Work) (region : Region) (v : ℕ) (x : ModelValue Identifier) →
        IsBoundTo work region binding.now v x → (result.variable ≡ v) × IsWorth work region result.value x }
{
    match binding {
        Binding::One { variable, tree } => Bound {
            variable: *variable,
            value: Value::One(*tree),
        },
        Binding::Rest {
            variable,
            list,
            from,
        } => Bound {
            variable: *variable,
            value: Value::Rest(*list, *from),
        },
        Binding::Many { variable, list } => Bound {
            variable: *variable,
            value: Value::Many(list.as_slice()),
        },
    }
}

/// What bindings say, in order.
pub fn all_bound<'a>(alloc: Global, bindings: &'a [Binding]) -> Mem<Vec<Bound<'a>>>
    ensures { (work : Work) (region : Region) (ms : List (ModelBinding Identifier Identifier)) →
        AreManyBound work region bindings.now ms → IfOk result (λ bounds. AreBound work region bounds.items ms) }
{
    let mut bounds = Vec::with_capacity(alloc, bindings.len())?;
    for binding in bindings {
        bounds.push(bound_by(binding))?;
    }
    Ok(bounds)
}

/// What a variable stands for at the first place of an ellipsis. One with a single value is the same everywhere.
#[inline(always)]
fn first_value(value: Value<'_>) -> Value<'_>
    ensures { (work : Work) (region : Region) (x : ModelValue Identifier) →
        IsWorth work region value.entry x → IsWorth work region result (first_value x) }
{
    match value {
        Value::One(_) => value,
        Value::Rest(_, _) => value,
        Value::Many(list) => {
            if list.is_empty() {
                return value;
            }
            bound_by(&list[0]).value
        }
    }
}

/// What a variable stands for at the places after the first.
#[inline(always)]
fn later_values(value: Value<'_>) -> Value<'_>
    ensures { (work : Work) (region : Region) (x : ModelValue Identifier) →
        IsWorth work region value.entry x → IsWorth work region result (later_values x) }
{
    match value {
        Value::One(_) => value,
        Value::Rest(_, _) => value,
        Value::Many(list) => {
            if list.is_empty() {
                return value;
            }
            Value::Many(&list[1..])
        }
    }
}

/// What variables stand for at the first place of an ellipsis.
pub fn first_place<'a>(alloc: Global, bounds: &[Bound<'a>]) -> Mem<Vec<Bound<'a>>>
    ensures { (work : Work) (region : Region) (ms : List (ModelBinding Identifier Identifier)) →
        AreBound work region bounds.now ms → IfOk result (λ here. AreBound work region here.items (first_place ms)) }
{
    let mut here = Vec::with_capacity(alloc, bounds.len())?;
    for bound in bounds {
        here.push(Bound {
            variable: bound.variable,
            value: first_value(bound.value),
        })?;
    }
    Ok(here)
}

/// What variables stand for at the places after the first.
pub fn later_places<'a>(alloc: Global, bounds: &[Bound<'a>]) -> Mem<Vec<Bound<'a>>>
    ensures { (work : Work) (region : Region) (ms : List (ModelBinding Identifier Identifier)) →
        AreBound work region bounds.now ms → IfOk result (λ later. AreBound work region later.items (later_places ms)) }
{
    let mut later = Vec::with_capacity(alloc, bounds.len())?;
    for bound in bounds {
        later.push(Bound {
            variable: bound.variable,
            value: later_values(bound.value),
        })?;
    }
    Ok(later)
}

/// How many places an ellipsis has: as many as each variable that drives it has values.
pub fn places_of(bounds: &[Bound]) -> Result<usize, BuildFault>
    ensures { (work : Work) (region : Region) (ms : List (ModelBinding Identifier Identifier)) →
        AreBound work region bounds.now ms → HasPlaces (places_of None ms) result }
{
    let mut places = None;
    for bound in bounds {
        places = agreed(places, bound.value)?;
    }
    Ok(places.unwrap_or(0))
}

/// How many places there are by one variable more, which must agree with those before it if it drives the ellipsis.
#[inline(always)]
fn agreed(places: Option<usize>, value: Value) -> Result<Option<usize>, BuildFault>
    ensures { (work : Work) (region : Region) (x : ModelValue Identifier) →
        IsWorth work region value.entry x → Agrees (agree_with places x) result }
{
    match value {
        Value::One(_) => Ok(places),
        Value::Rest(_, _) => Ok(places),
        Value::Many(list) => match places {
            None => Ok(Some(list.len())),
            Some(count) => {
                if count != list.len() {
                    return Err(BuildFault::EllipsisLength);
                }
                Ok(Some(count))
            }
        },
    }
}
