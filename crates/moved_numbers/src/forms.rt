//! Forms of units, and what their expansion met, under other numbers, changed in place without memory.
ghost use Rattle.std.specs.Prelude.{◌≡◌, map, length};
ghost use Rattle.scheme_model.specs.Steps.{Broken};
ghost use Rattle.syntax_tree.specs.Names.{Names};
ghost use Rattle.core_tree.specs.Names.{AllMatch, IsUse};
ghost use Rattle.core_tree.specs.Traces.{IsFault};
ghost use Rattle.core_tree.specs.Units.{IsBlank};
ghost use Rattle.renumbering_laws.specs.Renumbering.{macro_use_as, parts_as, broken_as};
ghost use Rattle.moves.specs.Numbers.{numbers_of};
ghost use Rattle.moves.specs.Works.{NamesMove};
ghost use Rattle.moved_numbers.specs.Leaves.{binder_as, target_as};
ghost use Rattle.moved_numbers.specs.Notes.{note_as};
ghost use Rattle.moved_numbers.specs.Standing.{StandsOn, UseStands, ItemsStand, ResultStands, result_as};
ghost use Rattle.moved_numbers.specs.Values.{item_as, use_as, fault_as, trace_as, form_as};

use crate::{cores, leaves, notes};
use core_tree::cores::{Binder, Target};
use core_tree::traces::{FormFault, MacroUse, Trace};
use core_tree::units::{ExpandedItem, UnitForm};
use ls_base::Items;
use moves::Moves;
use std::alloc::Global;
use std::mem;

/// Takes the items of a list out of it.
pub fn take<T: Drop>(alloc: Global, items: &mut Items<T>) -> Vec<T>
    ensures { result.items ≡ items.old }
{
    mem::replace(items, Items::new(alloc)).into_vec()
}

/// Binders, as a list.
fn binders(alloc: Global, moves: &Moves, items: &mut Items<Binder>)
    ensures { items.new ≡ map (binder_as (numbers_of moves.now)) items.old }
{
    let mut all = take(alloc, items);
    leaves::binders(moves, &mut all);
    *items = Items::from_vec(all);
}

/// Targets, as a list.
pub fn targets(alloc: Global, moves: &Moves, items: &mut Items<Target>)
    ensures { items.new ≡ map (target_as (numbers_of moves.now)) items.old }
{
    let mut all = take(alloc, items);
    leaves::targets(moves, &mut all);
    *items = Items::from_vec(all);
}

/// A macro use that was met.
fn macro_use(moves: &Moves, it: &mut MacroUse)
    ensures stands { StandsOn (numbers_of moves.now) UseStands (macro_use_as (numbers_of moves.now)) it.old it.new }
    ensures value { it.new ≡ use_as (numbers_of moves.now) it.old }
{
    it.keyword = leaves::target(moves, it.keyword);
    leaves::targets(moves, &mut it.literals);
}

/// Macro uses, one by one.
fn all_uses(moves: &Moves, all: &mut Vec<MacroUse>)
    ensures length { length all.new.items ≡ length all.old.items }
    ensures stands { StandsOn (numbers_of moves.now) (λ work unit form. AllMatch (UseStands work unit form)) (map (macro_use_as (numbers_of moves.now))) all.old.items all.new.items }
    ensures value { all.new.items ≡ map (use_as (numbers_of moves.now)) all.old.items }
{
    for i in 0..all.len() {
        macro_use(moves, &mut all[i]);
    }
}

/// Macro uses, as a list.
pub fn uses(alloc: Global, moves: &Moves, items: &mut Items<MacroUse>)
    ensures length { length items.new ≡ length items.old }
    ensures stands { StandsOn (numbers_of moves.now) (λ work unit form. AllMatch (UseStands work unit form)) (map (macro_use_as (numbers_of moves.now))) items.old items.new }
    ensures value { items.new ≡ map (use_as (numbers_of moves.now)) items.old }
{
    let mut all = take(alloc, items);
    all_uses(moves, &mut all);
    *items = Items::from_vec(all);
}

/// Parts with their counts, one by one.
fn all_parts(moves: &Moves, all: &mut Vec<ExpandedItem>)
    ensures length { length all.new.items ≡ length all.old.items }
    ensures stands { StandsOn (numbers_of moves.now) ItemsStand (parts_as (numbers_of moves.now)) all.old.items all.new.items }
    ensures value { all.new.items ≡ map (item_as (numbers_of moves.now)) all.old.items }
{
    for i in 0..all.len() {
        cores::part(moves, &mut all[i].part);
    }
}

/// Parts with their counts, as a list.
fn parts(alloc: Global, moves: &Moves, items: &mut Items<ExpandedItem>)
    ensures length { length items.new ≡ length items.old }
    ensures stands { StandsOn (numbers_of moves.now) ItemsStand (parts_as (numbers_of moves.now)) items.old items.new }
    ensures value { items.new ≡ map (item_as (numbers_of moves.now)) items.old }
{
    let mut all = take(alloc, items);
    all_parts(moves, &mut all);
    *items = Items::from_vec(all);
}

/// The fault of a form.
fn fault(moves: &Moves, it: &mut FormFault)
    ensures stands { (old new : Names) (b : Broken) → NamesMove (numbers_of moves.now) old new → IsFault old it.old b → IsFault new it.new (broken_as (numbers_of moves.now) b) }
    ensures value { it.new ≡ fault_as (numbers_of moves.now) it.old }
{
    it.occ = moves.place(it.occ);
    it.here = moves.place(it.here);
}

/// What the expansion of a form met.
fn trace(alloc: Global, moves: &Moves, it: &mut Trace)
    ensures definitions { it.new.definitions ≡ map (binder_as (numbers_of moves.now)) it.old.definitions }
    ensures keywords { it.new.keywords ≡ map (target_as (numbers_of moves.now)) it.old.keywords }
    ensures length { length it.new.uses ≡ length it.old.uses }
    ensures uses { StandsOn (numbers_of moves.now) (λ work unit form. AllMatch (UseStands work unit form)) (map (macro_use_as (numbers_of moves.now))) it.old.uses it.new.uses }
    ensures notes { it.new.notes.notes ≡ map (note_as (numbers_of moves.now)) it.old.notes.notes }
    ensures value { it.new ≡ trace_as (numbers_of moves.now) it.old }
{
    binders(alloc, moves, &mut it.definitions);
    targets(alloc, moves, &mut it.keywords);
    uses(alloc, moves, &mut it.uses);
    notes::notes(alloc, moves, &mut it.notes.notes);
}

/// A form of a unit: what it expands to and what that met, or its fault.
pub fn unit_form(alloc: Global, moves: &Moves, form: &mut UnitForm)
    ensures result { StandsOn (numbers_of moves.now) ResultStands (result_as (numbers_of moves.now)) form.old form.new }
    ensures items { length form.new.items ≡ length form.old.items }
    ensures blank { IsBlank form.old → IsBlank form.new }
    ensures definitions { form.new.trace.definitions ≡ map (binder_as (numbers_of moves.now)) form.old.trace.definitions }
    ensures notes { form.new.trace.notes.notes ≡ map (note_as (numbers_of moves.now)) form.old.trace.notes.notes }
    ensures value { form.new ≡ form_as (numbers_of moves.now) form.old }
{
    parts(alloc, moves, &mut form.items);
    trace(alloc, moves, &mut form.trace);
    match &mut form.fault {
        Some(it) => fault(moves, it),
        None => {}
    }
}
