//! The units that a change of some occurrences reaches: those that hold one, and those that import a unit in reach.
ghost use Rattle.std.specs.Prelude.{◌≡◌, ℕ, List, IfOk, false, if◌then◌else◌, length, replicate};
ghost use Rattle.std.specs.List.{list_any};
ghost use Rattle.std.specs.List.Sorted.{IsSorted};
ghost use Rattle.scheme_model.specs.Program.{UnitResult};
ghost use Rattle.rename_model.specs.Reach.{in_reach as model_reach};
ghost use Rattle.program_leaves.specs.Placed.{occ_cmp};
ghost use Rattle.program_differences.specs.Reached.{marked, with_mark, range_holds, least_held, unit_holds, with_holder, with_holders, AreInOrder, one_marked, with_importers, in_rounds, marks_from, HaveImports};

use core_tree::units::{TokenRange, Unit};
use ls_base::Mem;
use ls_base::limits::MAX_UNITS;
use scheme_model::Occ;
use std::alloc::Global;
use syntax_tree::units::UnitKind;

/// So many units, of which none is in reach.
fn nothing_reached(alloc: Global, units: usize) -> Mem<Vec<bool>>
    ensures { IfOk result (λ reached. reached.items ≡ replicate units false) }
{
    Ok(vec![in alloc; false; units]?)
}

/// Puts a unit in reach, where there is one at the place.
fn reach_unit(place: usize, reached: &mut Vec<bool>)
    ensures { reached.new.items ≡ with_mark reached.old.items place }
{
    if place < reached.len() {
        reached[place] = true;
    }
}

/// Occurrences in order, by unit, form and token.
fn in_order(alloc: Global, occs: &[Occ]) -> Mem<Vec<Occ>>
    ensures { IfOk result (λ sorted. AreInOrder occs.now sorted.items) }
{
    let mut sorted = Vec::new(alloc);
    sorted.extend_from_slice(occs)?;
    sorted.sort()?;
    Ok(sorted)
}

/// The least occurrence that is that of a token in a range, if there is any.
fn least_in(range: TokenRange) -> Occ
    ensures { result ≡ least_held range }
{
    Occ {
        unit: range.home.unit,
        form: range.home.form,
        token: range.first.saturating_sub(range.home.first),
    }
}

/// Whether an occurrence is that of a token in a range.
fn is_in_range(range: TokenRange, occ: Occ) -> bool
    ensures { result ≡ range_holds range occ }
{
    let token = u64::from(range.home.first) + u64::from(occ.token);
    range.home.unit == occ.unit
        && range.home.form == occ.form
        && u64::from(range.first) <= token
        && token <= u64::from(range.last)
}

/// Whether one of these occurrences, which are in order, is that of a token in a range.
fn holds(range: TokenRange, occs: &[Occ]) -> bool
    ensures { IsSorted occ_cmp occs.now → result ≡ list_any (range_holds range) occs.now }
{
    let least = least_in(range);
    let at = occs.partition_point(|occ| *occ < least);
    match occs.get(at) {
        None => false,
        Some(occ) => is_in_range(range, *occ),
    }
}

/// Whether one of these ranges has a token of one of these occurrences, which are in order.
fn one_holds(ranges: &[TokenRange], occs: &[Occ]) -> bool
    ensures { IsSorted occ_cmp occs.now → result ≡ list_any (λ range. list_any (range_holds range) occs.now) ranges.now }
{
    for range in ranges {
        if holds(*range, occs) {
            return true;
        }
    }
    false
}

/// Whether a unit holds one of these occurrences, which are in order. The program of a text that others include isn't reached.
fn holds_one(unit: &Unit, occs: &[Occ]) -> bool
    ensures { IsSorted occ_cmp occs.now → result ≡ unit_holds occs.now unit.now }
{
    match unit.kind {
        UnitKind::Part => false,
        UnitKind::Library => one_holds(unit.ranges.as_slice(), occs),
        UnitKind::Program => one_holds(unit.ranges.as_slice(), occs),
    }
}

/// Puts the unit at a place in reach where it holds one of these occurrences, which are in order. One behind the most units isn't reached.
fn reach_holder(unit: &Unit, place: usize, occs: &[Occ], reached: &mut Vec<bool>)
    ensures { IsSorted occ_cmp occs.now → reached.new.items ≡ with_holder occs.now place unit.now reached.old.items }
{
    if place >= MAX_UNITS {
        return;
    }
    if holds_one(unit, occs) {
        reach_unit(place, reached);
    }
}

/// Puts the units in reach that hold one of these occurrences, which are in order.
fn reach_holders(units: &[Unit], occs: &[Occ], reached: &mut Vec<bool>)
    ensures { IsSorted occ_cmp occs.now → reached.new.items ≡ with_holders occs.now 0 units.now reached.old.items }
{
    for place in 0..units.len() {
        reach_holder(&units[place], place, occs, reached);
    }
}

/// Whether the unit at a place is in reach, where there is one.
fn is_reached(reached: &[bool], place: usize) -> bool
    ensures { result ≡ marked reached.now place }
{
    if place >= reached.len() {
        return false;
    }
    reached[place]
}

/// Whether one of these units is in reach.
fn is_one_reached(units: &[u32], reached: &[bool]) -> bool
    ensures { result ≡ one_marked reached.now units.now }
{
    for unit in units {
        if is_reached(reached, *unit as usize) {
            return true;
        }
    }
    false
}

/// Puts the unit at a place in reach where one that it imports is, and tells whether it wasn't before.
fn reach_importer(imports: &[u32], place: usize, reached: &mut Vec<bool>) -> bool
    ensures reached { reached.new.items ≡ (if one_marked reached.old.items imports.now then with_mark reached.old.items place else reached.old.items) }
    ensures none { result ≡ false → reached.new.items ≡ reached.old.items }
{
    if is_reached(reached.as_slice(), place) {
        return false;
    }
    if !is_one_reached(imports, reached.as_slice()) {
        return false;
    }
    reach_unit(place, reached);
    true
}

/// Puts the units in reach that import one in reach, from the first on, and tells whether there was any that wasn't before.
fn reach_importers(units: &[Unit], reached: &mut Vec<bool>) -> bool
    ensures reached { reached.new.items ≡ with_importers 0 units.now reached.old.items }
    ensures none { result ≡ false → reached.new.items ≡ reached.old.items }
{
    let mut any = false;
    for place in 0..units.len() {
        any |= reach_importer(units[place].imports.as_slice(), place, reached);
    }
    any
}

/// Puts the units in reach that import one in reach, directly or not.
fn reach_all(units: &[Unit], reached: &mut Vec<bool>)
    ensures { reached.new.items ≡ in_rounds (length units.now) units.now reached.old.items }
{
    for _round in 0..units.len() {
        if !reach_importers(units, reached) {
            return;
        }
    }
}

/// The places of those that were reached, in order.
fn places_of(alloc: Global, reached: &[bool]) -> Mem<Vec<usize>>
    ensures { IfOk result (λ places. places.items ≡ marks_from 0 reached.now) }
{
    let mut places = Vec::new(alloc);
    for place in 0..reached.len() {
        if reached[place] {
            places.push(place)?;
        }
    }
    Ok(places)
}

/// The places of the units in reach of some occurrences, in the order of the list.
pub fn in_reach(alloc: Global, units: &[Unit], occs: &[Occ]) -> Mem<Vec<usize>>
    ensures { (rs : List UnitResult) → HaveImports 0 units.now rs → IfOk result (λ places. places.items ≡ model_reach rs occs.now) }
{
    let mut reached = nothing_reached(alloc, units.len())?;
    let occs = in_order(alloc, occs)?;
    reach_holders(units, occs.as_slice(), &mut reached);
    reach_all(units, &mut reached);
    Ok(places_of(alloc, reached.as_slice())?)
}
