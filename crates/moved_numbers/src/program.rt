//! All forms of a program under other numbers, changed in place without memory. What else units have stays as it was.
ghost use Rattle.std.specs.Prelude.{◌≡◌, map};
ghost use Rattle.core_tree.specs.Names.{AllMatch};
ghost use Rattle.moves.specs.Numbers.{numbers_of};
ghost use Rattle.moved_numbers.specs.Standing.{FormMoves, UnitMoves};
ghost use Rattle.moved_numbers.specs.Values.{form_as, unit_as, program_as};

use crate::forms::{take, unit_form};
use core_tree::units::{Program, Unit, UnitForm};
use ls_base::Items;
use moves::Moves;
use std::alloc::Global;

/// Forms, one by one.
pub fn unit_forms(alloc: Global, moves: &Moves, all: &mut [UnitForm])
    ensures forms { AllMatch (FormMoves (numbers_of moves.now)) all.old all.new }
    ensures value { all.new ≡ map (form_as (numbers_of moves.now)) all.old }
{
    for i in 0..all.len() {
        unit_form(alloc, moves, &mut all[i]);
    }
}

/// The forms of a unit.
fn unit(alloc: Global, moves: &Moves, it: &mut Unit)
    ensures forms { UnitMoves (numbers_of moves.now) it.old it.new }
    ensures value { it.new ≡ unit_as (numbers_of moves.now) it.old }
{
    let mut all = take(alloc, &mut it.forms);
    unit_forms(alloc, moves, all.as_mut_slice());
    it.forms = Items::from_vec(all);
}

/// Units, one by one.
fn all_units(alloc: Global, moves: &Moves, all: &mut Vec<Unit>)
    ensures forms { AllMatch (UnitMoves (numbers_of moves.now)) all.old.items all.new.items }
    ensures value { all.new.items ≡ map (unit_as (numbers_of moves.now)) all.old.items }
{
    for i in 0..all.len() {
        unit(alloc, moves, &mut all[i]);
    }
}

/// The forms of all units.
pub fn program(alloc: Global, moves: &Moves, it: &mut Program)
    ensures forms { AllMatch (UnitMoves (numbers_of moves.now)) it.old.units it.new.units }
    ensures value { it.new ≡ program_as (numbers_of moves.now) it.old }
{
    let mut all = take(alloc, &mut it.units);
    all_units(alloc, moves, &mut all);
    it.units = Items::from_vec(all);
}
