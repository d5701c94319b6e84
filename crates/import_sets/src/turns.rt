//! The units in their turns, each after what it imports. A unit is looked at when the turns begin, and again when one that it
//! imports has come; of those that are to be looked at the first comes first.
ghost use Rattle.std.specs.Prelude.{◌≡◌, ◌<◌, ◌≤◌, ◌^◌, ◌||◌, ℕ, List, [], IfOk, OnOk, IfSome, IfNone, length, true, false, slice_set, vec_len};
ghost use Rattle.std.specs.BTreeSet.{contains};
ghost use Rattle.std.specs.Ordering.{nat_cmp};
ghost use Rattle.scheme_model.specs.Program.{Prepared, is_in};
ghost use Rattle.import_sets.specs.InTurn.{in_turn};
ghost use Rattle.import_sets.specs.Graphs.{row, AreWithin, IsGraph, AreNumbered, add_one, add_to, AreImporters, all_marked, is_open};
ghost use Rattle.import_sets.specs.Waiting.{HasAllBelow, Finds, Misses};

use crate::places::row;
use crate::walk::no_marks;
use ls_base::{Items, Mem};
use std::alloc::Global;
use std::collections::BTreeSet;

/// Adds a unit to the row at a place.
fn add_one(rows: &mut Vec<Items<usize>>, unit: usize, place: usize) -> Mem<()>
    requires { place < vec_len rows.old }
    ensures { OnOk result (rows.new.items ≡ add_one rows.old.items unit place) }
{
    rows[place].push(unit)?;
    Ok(())
}

/// Adds a unit to the rows at these places.
fn add_to(rows: &mut Vec<Items<usize>>, unit: usize, places: &[usize]) -> Mem<()>
    requires { (p : ℕ) → is_in p places.now ≡ true → p < vec_len rows.old }
    ensures { OnOk result (rows.new.items ≡ add_to rows.old.items unit places.now) }
{
    for place in places {
        add_one(rows, unit, *place)?;
    }
    Ok(())
}

/// So many rows without a place.
fn empty_rows(alloc: Global, count: usize) -> Mem<Vec<Items<usize>>>
    ensures size { IfOk result (λ rows. vec_len rows ≡ count) }
    ensures empty { IfOk result (λ rows. (n : ℕ) → row rows.items n ≡ []) }
{
    let mut rows = Vec::new(alloc);
    for made in 0..count {
        rows.push(Items::new(alloc))?;
    }
    Ok(rows)
}

/// For each unit those that import it.
fn importers(alloc: Global, graph: &[Items<usize>]) -> Mem<Vec<Items<usize>>>
    requires { AreWithin graph.now }
    ensures { IfOk result (λ rows. AreImporters graph.now rows.items) }
{
    let mut rows = empty_rows(alloc, graph.len())?;
    for place in 0..graph.len() {
        add_to(&mut rows, place, row(graph, place))?;
    }
    Ok(rows)
}

/// Whether these units are all done.
fn all_done(done: &[bool], places: &[usize]) -> bool
    requires { (p : ℕ) → is_in p places.now ≡ true → p < length done.now }
    ensures { result ≡ all_marked done.now places.now }
{
    for place in places {
        if !done[*place] {
            return false;
        }
    }
    true
}

/// Whether a unit isn't done, and all that it imports is.
fn is_open(graph: &[Items<usize>], done: &[bool], place: usize) -> bool
    requires place { place < length graph.now }
    requires size { length done.now ≡ length graph.now }
    requires within { AreWithin graph.now }
    ensures { result ≡ is_open graph.now done.now place }
{
    !done[place] && all_done(done, row(graph, place))
}

/// All places below a number.
fn all_below(alloc: Global, count: usize) -> Mem<BTreeSet<usize>>
    ensures { IfOk result (λ places. HasAllBelow count places) }
{
    let mut places = BTreeSet::new(alloc);
    for place in 0..count {
        places.insert(place)?;
    }
    Ok(places)
}

/// Adds places to a set.
fn add_all(waiting: &mut BTreeSet<usize>, places: &[usize]) -> Mem<()>
    ensures { OnOk result ((n : ℕ) → contains nat_cmp waiting.new n ≡ (contains nat_cmp waiting.old n || is_in n places.now)) }
{
    for place in places {
        waiting.insert(*place)?;
    }
    Ok(())
}

/// The first of the waiting units that is open; those before it wait no more.
fn next_open(graph: &[Items<usize>], done: &[bool], waiting: &mut BTreeSet<usize>) -> Option<usize>
    requires size { length done.now ≡ length graph.now }
    requires within { AreWithin graph.now }
    requires units { (n : ℕ) → contains nat_cmp waiting.old n ≡ true → n < length graph.now }
    ensures found { IfSome result (Finds (is_open graph.now done.now) waiting.old waiting.new) }
    ensures none { IfNone result (Misses (is_open graph.now done.now) waiting.old) }
{
    while let Some(place) = waiting.pop_first() {
        if is_open(graph, done, place) {
            return Some(place);
        }
    }
    None
}

/// Marks a unit as done.
fn mark_done(done: &mut Vec<bool>, place: usize)
    requires { place < vec_len done.old }
    ensures { done.new.items ≡ slice_set done.old.items place true }
{
    done[place] = true;
}

/// Those that import a unit are to be looked at again.
fn look_again(waiting: &mut BTreeSet<usize>, importers: &[Items<usize>], place: usize) -> Mem<()>
    requires { place < length importers.now }
    ensures { OnOk result ((n : ℕ) → contains nat_cmp waiting.new n
        ≡ (contains nat_cmp waiting.old n || is_in n (row importers.now place))) }
{
    Ok(add_all(waiting, row(importers, place))?)
}

/// The units in their turns, as far as there are open ones.
pub fn turns(alloc: Global, graph: &[Items<usize>]) -> Mem<Items<u32>>
    requires few { length graph.now < 2 ^ 32 }
    requires within { AreWithin graph.now }
    ensures { (ps : List Prepared) → IsGraph graph.now ps → AreNumbered ps → IfOk result (λ places. places ≡ in_turn ps (length ps) []) }
{
    let count = graph.len();
    let importers = importers(alloc, graph)?;
    let rows = importers.as_slice();
    let mut done = no_marks(alloc, count)?;
    let mut waiting = all_below(alloc, count)?;
    let mut order = Items::new(alloc);
    for turn in 0..count {
        let Some(place) = next_open(graph, done.as_slice(), &mut waiting) else {
            return Ok(order);
        };
        mark_done(&mut done, place);
        look_again(&mut waiting, rows, place)?;
        order.push(place as u32)?;
    }
    Ok(order)
}
